// The kinds of cases, and what a case's words name in the library.
ghost use Rattle.std.specs.Prelude.{◌≡◌, Some};
ghost use Rattle.replay.specs.Kinds.{field_kind, scheme_number, parameter_of, item_number};
ghost use Rattle.replay.specs.Numbers.{number_of_kind, number_of_scheme, number_of_item};

// A reading of a sweep: without gaps, by the archive profile, with gaps, of two receptions, with the totals of a field plan.
#[derive(Clone, Copy)]
pub enum Reading {
    Plain,
    Strict,
    Gaps,
    Merge,
    Plan,
}

#[derive(Clone, Copy)]
pub enum Kind {
    Sweep(Reading),
    Symbology,
    Export,
    Token,
    Header,
    Time,
    Date,
    Field,
    Block,
    Linear,
    Float,
    Threshold,
    Precip,
    Charge,
    Legacy,
    Trailing,
    Known,
    Product,
    Name,
    Codes,
    Xdr,
}

// What a word of a case has to be.
#[derive(Clone, Copy)]
pub enum Form {
    Size,
    Number,
    Days,
    Seconds,
    Code,
    Clock,
    Bytes,
    // 32 bytes.
    Thresholds,
    Float,
    Scheme,
    FieldKind,
    Items,
    Ends,
    Rates,
}

// A field's kind.
#[derive(Clone, Copy)]
pub enum FieldKind {
    I16,
    U16,
    I32,
    Pair,
}

impl FieldKind {
    pub fn of(word: &[u8]) -> Option<FieldKind>
        ensures { number_of_kind result ≡ field_kind word.now }
    {
        match word {
            b"i16" => Some(FieldKind::I16),
            b"u16" => Some(FieldKind::U16),
            b"i32" => Some(FieldKind::I32),
            b"pair" => Some(FieldKind::Pair),
            _ => None,
        }
    }
}

impl From<FieldKind> for u32 {
    ghost from_gives = { λ kind n. n ≡ number_of_kind (Some kind) };

    fn from(kind: FieldKind) -> u32 {
        // The enum's own number.
        kind as u32
    }
}

// A scheme. Precipitation and Legacy have a parameter behind a colon.
#[derive(Clone, Copy)]
pub enum Scheme {
    Halfword,
    Float,
    Precipitation,
    Legacy,
    Class,
}

impl Scheme {
    pub fn of(word: &[u8]) -> Option<Scheme>
        ensures { number_of_scheme result ≡ scheme_number word.now }
    {
        match word {
            b"H" => Some(Scheme::Halfword),
            b"F" => Some(Scheme::Float),
            b"C" => Some(Scheme::Class),
            [b'P', b':', _, _, _, _, _, _, _, _] => Some(Scheme::Precipitation),
            [b'L', b':', _, _, _, _, _, _, _, _] => Some(Scheme::Legacy),
            _ => None,
        }
    }
}

impl From<Scheme> for u32 {
    ghost from_gives = { λ scheme n. n ≡ number_of_scheme (Some scheme) };

    fn from(scheme: Scheme) -> u32 {
        // The enum's own number.
        scheme as u32
    }
}

// The word of a scheme's parameter; an empty one where it has none.
pub fn parameter(word: &[u8]) -> &[u8]
    ensures { result.now ≡ parameter_of word.now }
{
    if word.len() == 10 { &word[2..] } else { &[] }
}

// An XDR item.
#[derive(Clone, Copy)]
pub enum Item {
    Int,
    Uint,
    Float,
    String,
    Array,
    List,
}

impl Item {
    pub fn of(letter: u8) -> Option<Item>
        ensures { number_of_item result ≡ item_number letter }
    {
        match letter {
            b'i' => Some(Item::Int),
            b'u' => Some(Item::Uint),
            b'f' => Some(Item::Float),
            b's' => Some(Item::String),
            b'a' => Some(Item::Array),
            b'l' => Some(Item::List),
            _ => None,
        }
    }
}

impl From<Item> for u32 {
    ghost from_gives = { λ item n. n ≡ number_of_item (Some item) };

    fn from(item: Item) -> u32 {
        // The enum's own number.
        item as u32
    }
}
