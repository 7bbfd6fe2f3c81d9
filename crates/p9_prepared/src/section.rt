//! The sections of an input.

ghost use Rattle.std.specs.Prelude.{◌≡◌};
ghost use Rattle.p9_prepared.specs.Section.{head_of, may_follow, name_of, place_of, section_of};

/// The sections of an input, in the order in which they are.
#[derive(Clone, Copy, Debug, PartialEq, Eq, PartialOrd, Ord)]
pub enum Section {
    /// The servers, their trees, users and groups, and what is hidden.
    World,
    /// A namespace file.
    Ns,
    /// The rows of a certificate.
    Cert,
    /// Events that are played.
    Script,
}

/// The four sections, in that order.
pub const SECTIONS: [Section; 4] = [Section::World, Section::Ns, Section::Cert, Section::Script];

impl Section {
    /// The section that a line begins, to the byte; `None` where it begins none.
    pub fn begun_by(line: &str) -> Option<Section>
        ensures { result ≡ section_of line.now }
    {
        match line {
            "%% world" => Some(Section::World),
            "%% ns" => Some(Section::Ns),
            "%% cert" => Some(Section::Cert),
            "%% script" => Some(Section::Script),
            _ => None,
        }
    }

    /// The line that begins it, without a newline.
    pub fn head(self) -> &'static str
        ensures { result.now ≡ head_of self }
    {
        match self {
            Section::World => "%% world",
            Section::Ns => "%% ns",
            Section::Cert => "%% cert",
            Section::Script => "%% script",
        }
    }

    /// Its name, by which its lines are told.
    pub fn name(self) -> &'static str
        ensures { result.now ≡ name_of self }
    {
        match self {
            Section::World => "world",
            Section::Ns => "ns",
            Section::Cert => "cert",
            Section::Script => "script",
        }
    }

    // Its place among all.
    fn place(self) -> u8
        ensures { result ≡ place_of self }
    {
        match self {
            Section::World => 0,
            Section::Ns => 1,
            Section::Cert => 2,
            Section::Script => 3,
        }
    }

    /// Whether it may follow the one before, if there is one.
    pub(crate) fn may_follow(self, last: Option<Section>) -> bool
        ensures { result ≡ may_follow last self }
    {
        last.is_none_or(|last| last.place() < self.place())
    }
}
