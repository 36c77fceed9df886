//! The rules that a source text has to keep.

/// A rule that a source text breaks.
#[derive(Clone, Copy, Debug, PartialEq, Eq)]
pub enum Rule {
    /// Columns 1 to 72 hold a byte outside 32 to 126.
    StrangeByte,
    /// Columns 1 to 5 of an initial line are neither blank nor a label.
    MalformedLabel,
    /// A continuation line has no initial line before it.
    LooseContinuation,
    /// A statement has twenty continuation lines.
    ManyContinuations,
    /// A continuation line has something in columns 1 to 5.
    LabelledContinuation,
    /// The text has 65,536 lines.
    ManyLines,
    /// There is no END.
    NoEnd,
    /// A line behind END is no comment.
    LineBehindEnd,
    /// A text is no statement.
    UnknownStatement,
    /// A character constant has no end.
    UnendedText,
    /// A constant is real.
    RealConstant,
    /// A constant is above the greatest integer.
    LargeConstant,
    /// A name has more than six characters.
    LongName,
    /// An expression or a statement is malformed.
    Malformed,
    /// An expression is deeper than 128.
    Deep,
    /// The profile leaves a statement of this name out.
    LeftOut,
    /// A statement is out of order.
    OutOfOrder,
    /// A name is not integer.
    NotInteger,
    /// A name is declared twice.
    DeclaredTwice,
    /// Subscripts or arguments are too many or too few.
    WrongSubscripts,
    /// A DO isn't ended where it has to be.
    OpenLoop,
    /// The terminal statement of a DO is of a wrong kind.
    WrongTerminal,
    /// The blocks of an IF are not nested as they have to be.
    CrossedBlocks,
    /// The variable of a DO is changed inside it.
    ActiveVariable,
    /// A constant is changed.
    ChangedConstant,
    /// The bounds of an array are crossed, or too many.
    CrossedBounds,
    /// A program is too large.
    LargeProgram,
    /// A label stands twice.
    RepeatedLabel,
    /// A constant expression has no value.
    NoValue,
    /// An expression is logical where an integer is wanted, or an integer where a logical one is.
    WrongKind,
    /// The code of a program is too long.
    LongCode,
}

impl Rule {
    ghost use Rattle.std.specs.Prelude.{◌≡◌};
    ghost use Rattle.ast.specs.Rule.{number_of};

    /// The number by which the rule is known: 1 to 8 of lines, 20 to 27 of statements, 30 to 43 of
    /// the profile, and 61.
    pub fn number(self) -> u8
        ensures { result ≡ number_of self }
    {
        match self {
            Rule::StrangeByte => 1,
            Rule::MalformedLabel => 2,
            Rule::LooseContinuation => 3,
            Rule::ManyContinuations => 4,
            Rule::LabelledContinuation => 5,
            Rule::ManyLines => 6,
            Rule::NoEnd => 7,
            Rule::LineBehindEnd => 8,
            Rule::UnknownStatement => 20,
            Rule::UnendedText => 21,
            Rule::RealConstant => 22,
            Rule::LargeConstant => 23,
            Rule::LongName => 24,
            Rule::Malformed => 25,
            Rule::Deep => 26,
            Rule::LeftOut => 27,
            Rule::OutOfOrder => 30,
            Rule::NotInteger => 31,
            Rule::DeclaredTwice => 32,
            Rule::WrongSubscripts => 33,
            Rule::OpenLoop => 34,
            Rule::WrongTerminal => 35,
            Rule::CrossedBlocks => 36,
            Rule::ActiveVariable => 37,
            Rule::ChangedConstant => 38,
            Rule::CrossedBounds => 39,
            Rule::LargeProgram => 40,
            Rule::RepeatedLabel => 41,
            Rule::NoValue => 42,
            Rule::WrongKind => 43,
            Rule::LongCode => 61,
        }
    }
}
