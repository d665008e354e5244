// Files of two stations, and the graph of the first.

/// One track.
pub const ONE: &str = "<infrastructure id=\"i\"><tracks><track id=\"m\"><trackTopology>
<trackBegin id=\"mb\" pos=\"0\" absPos=\"0\"><openEnd id=\"mo\"/></trackBegin>
<trackEnd id=\"me\" pos=\"600\" absPos=\"600\"><openEnd id=\"mp\"/></trackEnd>
</trackTopology></track></tracks></infrastructure>
";

pub const ONE_GRAPH: &str = "railgraph 1
nodes 2
node 0 mb end 0.000000
node 1 me end 600.000000
edges 1
edge 0 m 0 1
";

/// A track with a loop on its upper side.
pub const LOOP: &str = "<infrastructure id=\"i\"><tracks>
<track id=\"m\"><trackTopology>
<trackBegin id=\"mb\" pos=\"0\" absPos=\"0\"><openEnd id=\"mo\"/></trackBegin>
<trackEnd id=\"me\" pos=\"600\" absPos=\"600\"><openEnd id=\"mp\"/></trackEnd>
<connections>
<switch id=\"s1\" pos=\"100\" absPos=\"100\">
<connection id=\"c1\" ref=\"d1\" course=\"left\" orientation=\"outgoing\"/></switch>
<switch id=\"s2\" pos=\"500\" absPos=\"500\">
<connection id=\"c2\" ref=\"d2\" course=\"right\" orientation=\"incoming\"/></switch>
</connections></trackTopology></track>
<track id=\"l\"><trackTopology>
<trackBegin id=\"lb\" pos=\"0\" absPos=\"100\"><connection id=\"d1\" ref=\"c1\"/></trackBegin>
<trackEnd id=\"le\" pos=\"400\" absPos=\"500\"><connection id=\"d2\" ref=\"c2\"/></trackEnd>
</trackTopology></track>
</tracks></infrastructure>
";
