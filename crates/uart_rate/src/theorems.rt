// What is proved of the rules themselves. Each function does nothing; its contract is the theorem.
ghost use Rattle.uart_rate.specs.Decided.{LawReckoned, FinelyDivided, AnswersDecided};
ghost use Rattle.uart_rate.specs.Examples.{WorkedExamples};

// The rate law is met by the reckoned prescaler and divider, and by no other numbers.
pub fn law_reckoned()
    ensures { LawReckoned }
{}

// Under a prescaler of 2 or more the divider is a fine one.
pub fn finely_divided()
    ensures { FinelyDivided }
{}

// The rules on refusals, dividers and rates allow one answer to each configuration.
pub fn answers_decided()
    ensures { AnswersDecided }
{}

// The worked examples of `docs/RATES.md` hold.
pub fn worked_examples()
    ensures { WorkedExamples }
{}
