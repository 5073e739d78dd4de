// What makes a run of characters an AT command.
#[derive(Clone, Copy, Debug, PartialEq, Eq)]
pub struct AtCmdConfig {
    pub pre_idle_count: Option<u16>,
    pub post_idle_count: Option<u16>,
    pub gap_timeout: Option<u16>,
    pub cmd_char: u8,
    pub char_num: u8,
}
