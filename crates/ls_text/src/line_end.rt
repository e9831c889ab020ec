//! How lines end.

ghost use Rattle.std.specs.Prelude.{◌≡◌, length};
ghost use Rattle.ls_text.specs.Cut.{end_text, first_end};

// How a line ends. Only the last line of a text has no line end.
#[derive(Clone, Copy, Debug, PartialEq, Eq)]
pub enum LineEnd {
    Eof,
    Lf,
    Cr,
    CrLf,
}

// The line end at the front of these bytes, which begin with LF or CR, or are no more.
pub fn first_end(bytes: &[u8]) -> LineEnd
    ensures { result ≡ first_end bytes.now }
{
    match bytes {
        [] => LineEnd::Eof,
        [b'\n', ..] => LineEnd::Lf,
        [_, b'\n', ..] => LineEnd::CrLf,
        _ => LineEnd::Cr,
    }
}

impl LineEnd {
    // How many characters a line end has, which are as many bytes.
    pub fn len(self) -> usize
        ensures { result ≡ length (end_text self) }
    {
        match self {
            LineEnd::Eof => 0,
            LineEnd::Lf | LineEnd::Cr => 1,
            LineEnd::CrLf => 2,
        }
    }

    // The text of a line end.
    pub fn as_str(self) -> &'static str
        ensures { result.now ≡ end_text self }
    {
        match self {
            LineEnd::Eof => "",
            LineEnd::Lf => "\n",
            LineEnd::Cr => "\r",
            LineEnd::CrLf => "\r\n",
        }
    }
}
