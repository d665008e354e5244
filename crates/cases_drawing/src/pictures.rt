// Drawings of the small stations: the lines of a sheet from its nodes to its values.

/// A track from column 2 to column 7 of row 0.
pub const ONE_LEVEL: &str = "nodes 2
node 0 mb 2 0
node 1 me 7 0
edges 1
edge 0 0 1 2 0 7 0
values 0 0 0 7
";

/// A track in the one column step of a grid.
pub const ONE_STEP: &str = "nodes 2
node 0 mb 0 0
node 1 me 1 0
edges 1
edge 0 0 1 0 0 1 0
values 0 0 0 1
";

/// A track in row 5 of such a grid.
pub const ONE_HIGH: &str = "nodes 2
node 0 mb 0 5
node 1 me 1 5
edges 1
edge 0 0 1 0 5 1 5
values 5 0 0 1
";

/// The first of two tracks is the lower one.
pub const TWO_RISING: &str = "nodes 4
node 0 ab 0 0
node 1 ae 1 0
node 2 bb 0 1
node 3 be 1 1
edges 2
edge 0 0 1 0 0 1 0
edge 1 2 3 0 1 1 1
values 1 0 0 1
";

/// The first of two tracks is the upper one, and both lie east.
pub const TWO_FALLING: &str = "nodes 4
node 0 ab 3 4
node 1 ae 8 4
node 2 bb 3 0
node 3 be 8 0
edges 2
edge 0 0 1 3 4 8 4
edge 1 2 3 3 0 8 0
values 4 0 0 8
";

/// The best drawing of the loop.
pub const LOOP_BEST: &str = "nodes 4
node 0 mb 0 0
node 1 me 5 0
node 2 s1 1 0
node 3 s2 4 0
edges 4
edge 0 0 2 0 0 1 0
edge 1 2 3 1 0 4 0
edge 2 3 1 4 0 5 0
edge 3 2 3 1 0 2 1 3 1 4 0
values 1 2 2 5
";

/// The best drawing of the loop with two columns for each edge.
pub const LOOP_WIDE: &str = "nodes 4
node 0 mb 0 0
node 1 me 7 0
node 2 s1 2 0
node 3 s2 5 0
edges 4
edge 0 0 2 0 0 2 0
edge 1 2 3 2 0 5 0
edge 2 3 1 5 0 7 0
edge 3 2 3 2 0 3 1 4 1 5 0
values 1 2 2 7
";

/// The loop goes straight, and the main track turns off below it at both switches.
pub const LOOP_SWAPPED: &str = "nodes 4
node 0 mb 0 2
node 1 me 8 2
node 2 s1 2 1
node 3 s2 6 1
edges 4
edge 0 0 2 0 2 1 2 2 1
edge 1 2 3 2 1 3 0 5 0 6 1
edge 2 3 1 6 1 7 2 8 2
edge 3 2 3 2 1 6 1
values 2 4 4 8
";

/// The best drawing of the loop that is listed from its east end.
pub const BACK_BEST: &str = "nodes 4
node 0 mb 5 0
node 1 me 0 0
node 2 s1 4 0
node 3 s2 1 0
edges 4
edge 0 2 0 4 0 5 0
edge 1 3 2 1 0 4 0
edge 2 1 3 0 0 1 0
edge 3 3 2 1 0 2 1 3 1 4 0
values 1 2 2 5
";

/// The best drawing of the crossover, which is one diagonal.
pub const CROSS_BEST: &str = "nodes 6
node 0 pb 0 0
node 1 pe 3 0
node 2 a 1 0
node 3 qb 0 1
node 4 qe 3 1
node 5 b 2 1
edges 5
edge 0 0 2 0 0 1 0
edge 1 2 1 1 0 3 0
edge 2 3 5 0 1 2 1
edge 3 5 4 2 1 3 1
edge 4 2 5 1 0 2 1
values 1 0 1 3
";

/// A drawing of the crossover with two columns for each edge: it is one diagonal of that length.
pub const CROSS_WIDE: &str = "nodes 6
node 0 pb 0 0
node 1 pe 6 0
node 2 a 2 0
node 3 qb 0 2
node 4 qe 6 2
node 5 b 4 2
edges 5
edge 0 0 2 0 0 2 0
edge 1 2 1 2 0 6 0
edge 2 3 5 0 2 4 2
edge 3 5 4 4 2 6 2
edge 4 2 5 2 0 4 2
values 2 0 2 6
";

/// The best drawing of the scissors.
pub const SCISSORS_BEST: &str = "nodes 9
node 0 pb 0 0
node 1 pe 4 0
node 2 a1 1 0
node 3 b1 3 0
node 4 qb 0 2
node 5 qe 4 2
node 6 a2 1 2
node 7 b2 3 2
node 8 k 2 1
edges 10
edge 0 0 2 0 0 1 0
edge 1 2 3 1 0 3 0
edge 2 3 1 3 0 4 0
edge 3 4 6 0 2 1 2
edge 4 6 7 1 2 3 2
edge 5 7 5 3 2 4 2
edge 6 2 8 1 0 2 1
edge 7 8 7 2 1 3 2
edge 8 8 3 2 1 3 0
edge 9 6 8 1 2 2 1
values 2 0 4 4
";
