// What can be wrong with the rows of a document.
ghost use Rattle.std.specs.Prelude.{◌≡◌};
ghost use Rattle.railml_faults.specs.Faults.{number_of, word_of};

/// The faults of a topology, in the order of their numbers from 1 to 13. Where rows have several, the
/// lowest number counts, and then the least place.
#[derive(Clone, Copy, Debug, PartialEq, Eq)]
pub enum TopologyWhat {
    /// There is no track.
    NoTracks,
    /// There are more than 128 tracks. The place is that of the 129th.
    TooMany,
    /// A required attribute is missing. The text is its name.
    Missing,
    /// An id is too short, too long, or has a character that none may have.
    Id,
    /// An earlier element has the id too. The text is the id.
    RepeatedId,
    /// A `pos` or an `absPos` is no number of metres. The texts are the element's id and the attribute's name.
    Number,
    /// A connection refers to no connection. The text is its id.
    UnknownRef,
    /// A connection refers to one that refers to another. The texts are both ids.
    NotMutual,
    /// A connection refers to itself. The text is its id.
    SelfRef,
    /// A track, a begin, an end, a switch or a crossing lacks one of its parts, or has one too many. The text is its
    /// id.
    EndKind,
    /// A course is none that its connection may have. The text is the connection's id.
    Course,
    /// An orientation is neither `incoming` nor `outgoing`. The text is the connection's id.
    Orientation,
    /// An end, a switch or a crossing lies outside of its track. The text is its id.
    OutsideTrack,
}

impl TopologyWhat {
    /// The fault's number, from 1 to 13.
    pub fn number(&self) -> u8
        ensures { result ≡ number_of self.now }
    {
        match self {
            TopologyWhat::NoTracks => 1,
            TopologyWhat::TooMany => 2,
            TopologyWhat::Missing => 3,
            TopologyWhat::Id => 4,
            TopologyWhat::RepeatedId => 5,
            TopologyWhat::Number => 6,
            TopologyWhat::UnknownRef => 7,
            TopologyWhat::NotMutual => 8,
            TopologyWhat::SelfRef => 9,
            TopologyWhat::EndKind => 10,
            TopologyWhat::Course => 11,
            TopologyWhat::Orientation => 12,
            TopologyWhat::OutsideTrack => 13,
        }
    }

    /// The fault's word, as a fault line has it.
    pub fn word(&self) -> &'static str
        ensures { result.now ≡ word_of self.now }
    {
        match self {
            TopologyWhat::NoTracks => "NoTracks",
            TopologyWhat::TooMany => "TooMany",
            TopologyWhat::Missing => "Missing",
            TopologyWhat::Id => "Id",
            TopologyWhat::RepeatedId => "RepeatedId",
            TopologyWhat::Number => "Number",
            TopologyWhat::UnknownRef => "UnknownRef",
            TopologyWhat::NotMutual => "NotMutual",
            TopologyWhat::SelfRef => "SelfRef",
            TopologyWhat::EndKind => "EndKind",
            TopologyWhat::Course => "Course",
            TopologyWhat::Orientation => "Orientation",
            TopologyWhat::OutsideTrack => "OutsideTrack",
        }
    }
}
