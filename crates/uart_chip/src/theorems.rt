// What is proved of the device's meaning itself. Each function does nothing; its contract is the theorem.
ghost use Rattle.uart_chip.specs.Theorems.{FieldsDistinct, UpdatesCounted};

// No two fields share a place.
pub fn fields_distinct()
    ensures { FieldsDistinct }
{}

// An update of delay n stands for n reads, and the next one finds it done.
pub fn updates_counted()
    ensures { UpdatesCounted }
{}
