// The theorems of the model, each in the contract of a function of its own: the check asks for the proof of a statement only where a
// contract names it. The definitions stand in specs/, in reading order as specs/Lib.antt lists them.
#![tactic(auto)]

ghost use Rattle.model.specs.Thresholds.{ThresholdsHold};
ghost use Rattle.model.specs.Promise.{SignsOne, TakesOne, OneCertified, WebsWhole, OrdersAgree, OrdersGrow, NothingTwice, NothingForged, CausesFirst, NoDeadEnd, MainPromise};
ghost use Rattle.model.specs.Cases.{AllCases};
ghost use Rattle.model.specs.Renaming.{NamesDontMatter};
ghost use Rattle.model.specs.Runs.{NotEmpty};

// The laws of thresholds hold for every committee of that kind, and 3 f + 1, 2 f + 1 and f + 1 is one.
pub fn threshold_laws_stand() -> u8
    ensures { ThresholdsHold }
{
    0
}

// A good member never signs two blocks of one author and round.
pub fn signs_one_stands() -> u8
    ensures { SignsOne }
{
    0
}

// A good member never takes in two blocks of one author and round.
pub fn takes_one_stands() -> u8
    ensures { TakesOne }
{
    0
}

// At most one block of an author and round is ever certified.
pub fn one_certified_stands() -> u8
    ensures { OneCertified }
{
    0
}

// What a good member has taken in is valid and certified, there once, with all that is reached from it.
pub fn webs_whole_stands() -> u8
    ensures { WebsWhole }
{
    0
}

// Of two good members' orders, at any two times, one is a beginning of the other.
pub fn orders_agree_stands() -> u8
    ensures { OrdersAgree }
{
    0
}

// A good member's order only grows.
pub fn orders_grow_stands() -> u8
    ensures { OrdersGrow }
{
    0
}

// Nothing stands in an order twice.
pub fn nothing_twice_stands() -> u8
    ensures { NothingTwice }
{
    0
}

// Nothing stands in an order in a good member's name that it didn't make.
pub fn nothing_forged_stands() -> u8
    ensures { NothingForged }
{
    0
}

// All that a block builds on stands before it.
pub fn causes_first_stands() -> u8
    ensures { CausesFirst }
{
    0
}

// From every state good members alone can bring all that they made into every good member's order.
pub fn no_dead_end_stands() -> u8
    ensures { NoDeadEnd }
{
    0
}

// The main promise: all of these together.
pub fn main_promise_stands() -> u8
    ensures { MainPromise }
{
    0
}

// The small cases.
pub fn cases_stand() -> u8
    ensures { AllCases }
{
    0
}

// The order of a renamed web is the renamed order.
pub fn names_dont_matter_stands() -> u8
    ensures { NamesDontMatter }
{
    0
}

// The promise isn't empty, and its bound on bad members is needed.
pub fn promise_not_empty_stands() -> u8
    ensures { NotEmpty }
{
    0
}
