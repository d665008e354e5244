// How great the inputs, the graph and the grid may be. What answers past a limit stands beside the function that
// compares with it.

/// The most tracks of a file.
pub const MAX_TRACKS: usize = 128;

/// The most nodes of a track graph.
pub const MAX_NODES: usize = 128;

/// The most edges of a track graph.
pub const MAX_EDGES: usize = 160;

/// The most bytes of an id.
pub const MAX_ID_BYTES: usize = 64;

/// The most bytes of a railML file and of a sheet.
pub const MAX_FILE_BYTES: usize = 4_194_304;

/// The most bytes of a log that is read.
pub const MAX_LOG_BYTES: usize = 536_870_912;

/// The greatest column of a grid.
pub const MAX_WIDTH: u16 = 64;

/// The greatest row of a grid.
pub const MAX_HEIGHT: u16 = 12;

/// The most columns that a grid may ask of every edge.
pub const MAX_LEAST: u16 = 16;

/// The greatest budget of learnt clauses.
pub const MAX_BUDGET: u32 = 200_000;
