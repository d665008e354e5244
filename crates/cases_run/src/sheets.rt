// Sheets of these stations, as `draw` prints them.

pub const ONE_SHEET: &str = "railplan 2
grid 40 8 1
order height bends diagonal width
nodes 2
node 0 mb 0 0 0.000000
node 1 me 1 0 600.000000
edges 1
edge 0 m 0 1 0 0 1 0
values 0 0 0 1
end best
";

/// Each point of it is forced.
pub const LOOP_SHEET: &str = "railplan 2
grid 40 8 1
order height bends diagonal width
nodes 4
node 0 mb 0 0 0.000000
node 1 me 5 0 600.000000
node 2 s1 1 0 100.000000
node 3 s2 4 0 500.000000
edges 4
edge 0 m 0 2 0 0 1 0
edge 1 m 2 3 1 0 4 0
edge 2 m 3 1 4 0 5 0
edge 3 l 2 3 1 0 2 1 3 1 4 0
values 1 2 2 5
end best
";
