//! What may be found in a text.

ghost use Rattle.std.specs.Prelude.{◌≡◌};
ghost use Rattle.abnf_lint.specs.Order as order;

use abnf_syntax::SyntaxFault;
use ls_lists::Text;
use ls_text::Place;

/// What is wrong or doubtful, in the order in which it is reported at one place. A block is sound where it shows no
/// fault. The first five, to `duplicate`, are errors, the others warnings ([`severity`](Code::severity)).
#[derive(Clone, Copy, Debug, Drop, PartialEq, Eq)]
pub enum Code {
    /// `syntax`: the block is no rule; the fault says why. At the fault's place, but for those of the next two.
    Syntax(SyntaxFault),
    /// `number-too-large`: a number is above 4,294,967,295, and makes its block faulty. At the number.
    NumberTooLarge,
    /// `too-deep`: a bracket nests 65 deep. At the bracket.
    TooDeep,
    /// `undefined`: in a sound block a name stands for no rule and no core rule. At the name.
    Undefined,
    /// `duplicate`: an earlier block defines the name with `=` too. At the head of the second or later one.
    Duplicate,
    /// `no-base`: no earlier block defines with `=` the name to which this one adds with `=/`. At its head.
    NoBase,
    /// `empty-repeat`: in a sound block a repeat has its minimum above its maximum. At the repeat.
    EmptyRepeat,
    /// `empty-range`: in a sound block a range has its low end above its high end. At the range.
    EmptyRange,
    /// `unproductive`: the rule generates no string, and leads to no prose and no faulty block. At its first head.
    Unproductive,
}

impl Code {
    /// Its place in the order in which codes are reported at one place, from 1 to 9.
    pub fn row(self) -> u8
        ensures { result ≡ order.code_row self }
    {
        match self {
            Code::Syntax(_) => 1,
            Code::NumberTooLarge => 2,
            Code::TooDeep => 3,
            Code::Undefined => 4,
            Code::Duplicate => 5,
            Code::NoBase => 6,
            Code::EmptyRepeat => 7,
            Code::EmptyRange => 8,
            Code::Unproductive => 9,
        }
    }
}

/// What is found at a place. The name is that which the message names, as it is spelled there; else it is empty.
#[derive(Drop)]
pub struct Finding {
    /// Where it stands: a line, and bytes of it.
    pub place: Place,
    /// What is found.
    pub code: Code,
    /// The name in the message, or none.
    pub name: Text,
}
