// The rows of a topology: tracks, what stands on them, and how they are joined.
use crate::{Hand, Items, Micro, Text};

/// The tracks of a file.
#[derive(Drop)]
pub struct Topology {
    pub tracks: TrackList,
}

/// Tracks in file order.
pub type TrackList = Items<Track>;

/// A track with its two ends and its switches and crossings. `at` is the byte of its start tag.
#[derive(Drop)]
pub struct Track {
    pub id: Text,
    pub at: usize,
    pub begin: End,
    pub end: End,
    pub inner: InnerList,
}

/// A track's begin or end. `mile` is its mileage in micrometres, and `joined` the connection that
/// leads on, if any.
#[derive(Drop)]
pub struct End {
    pub id: Text,
    pub at: usize,
    pub mile: Micro,
    pub joined: Option<Conn>,
}

/// Switches and crossings of a track, by position and then in file order.
pub type InnerList = Items<Inner>;

/// A switch or a crossing.
#[derive(Drop)]
pub struct Inner {
    pub id: Text,
    pub at: usize,
    pub mile: Micro,
    pub what: InnerKind,
}

/// What a switch or a crossing connects. `outgoing` says that the branch leaves towards the
/// track's end; `track_diverges`, that the track takes the diverging leg and the branch the straight
/// one. A crossing's `hand` is that to which its other path leaves the track.
#[derive(Drop)]
pub enum InnerKind {
    Switch {
        outgoing: bool,
        hand: Hand,
        track_diverges: bool,
        conn: Conn,
    },
    Crossing {
        hand: Hand,
        incoming: Conn,
        outgoing: Conn,
    },
}

/// A connection, and the place that it leads to.
#[derive(Drop)]
pub struct Conn {
    pub id: Text,
    pub at: usize,
    pub to: Place,
}

/// Where a connection leads: a track by its number from 0, and a part of it.
#[derive(Clone, Copy, Debug, PartialEq, Eq)]
pub struct Place {
    pub track: u16,
    pub part: Part,
}

/// A part of a track. The numbers are places in the track's `inner`, from 0.
#[derive(Clone, Copy, Debug, PartialEq, Eq)]
pub enum Part {
    Begin,
    End,
    Branch(u32),
    Incoming(u32),
    Outgoing(u32),
}
