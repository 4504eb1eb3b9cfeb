//! The kinds of lines of a feed, by the first field of a line.

ghost use Rattle.std.specs.Prelude.{◌≡◌};
ghost use Rattle.vx_feed.specs.Form.{field_count, kind_of_text};

/// The kinds of lines of a feed.
#[derive(Clone, Copy, Debug, PartialEq, Eq)]
pub enum Kind {
    Header,
    Expiry,
    Rate,
    Series,
    Quote,
    Trade,
    Tick,
    Opening,
    End,
}

/// The kind of line that a first field names.
pub(crate) fn kind_of(text: &[u8]) -> Option<Kind>
    ensures { result ≡ kind_of_text text.now }
{
    if text == b"H".as_slice() {
        Some(Kind::Header)
    } else if text == b"E".as_slice() {
        Some(Kind::Expiry)
    } else if text == b"R".as_slice() {
        Some(Kind::Rate)
    } else if text == b"S".as_slice() {
        Some(Kind::Series)
    } else if text == b"Q".as_slice() {
        Some(Kind::Quote)
    } else if text == b"T".as_slice() {
        Some(Kind::Trade)
    } else if text == b"V".as_slice() {
        Some(Kind::Tick)
    } else if text == b"Z".as_slice() {
        Some(Kind::Opening)
    } else if text == b"END".as_slice() {
        Some(Kind::End)
    } else {
        None
    }
}

impl Kind {
    /// How many fields a line of this kind has, its kind among them.
    pub fn field_count(self) -> usize
        ensures { result ≡ field_count self }
    {
        match self {
            Kind::Series | Kind::Tick | Kind::Opening | Kind::End => 2,
            Kind::Header | Kind::Expiry => 3,
            Kind::Rate | Kind::Trade => 4,
            Kind::Quote => 5,
        }
    }
}
