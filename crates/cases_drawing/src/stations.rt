// Small stations.

/// One track.
pub const ONE: &str = "<infrastructure><tracks>
<track id=\"m\"><trackTopology>
<trackBegin id=\"mb\" pos=\"0\" absPos=\"0\"><openEnd/></trackBegin>
<trackEnd id=\"me\" pos=\"600\"><openEnd/></trackEnd>
</trackTopology></track>
</tracks></infrastructure>
";

/// Two tracks of the same mileages that nothing joins.
pub const TWO: &str = "<infrastructure><tracks>
<track id=\"a\"><trackTopology>
<trackBegin id=\"ab\" pos=\"0\" absPos=\"0\"><openEnd/></trackBegin>
<trackEnd id=\"ae\" pos=\"600\"><openEnd/></trackEnd>
</trackTopology></track>
<track id=\"b\"><trackTopology>
<trackBegin id=\"bb\" pos=\"0\" absPos=\"0\"><openEnd/></trackBegin>
<trackEnd id=\"be\" pos=\"600\"><openEnd/></trackEnd>
</trackTopology></track>
</tracks></infrastructure>
";

/// A track with a loop on its upper side.
pub const LOOP: &str = "<infrastructure><tracks>
<track id=\"m\"><trackTopology>
<trackBegin id=\"mb\" pos=\"0\" absPos=\"0\"><openEnd/></trackBegin>
<trackEnd id=\"me\" pos=\"600\"><openEnd/></trackEnd>
<connections>
<switch id=\"s1\" pos=\"100\"><connection id=\"c1\" ref=\"d1\" course=\"left\" orientation=\"outgoing\"/></switch>
<switch id=\"s2\" pos=\"500\"><connection id=\"c2\" ref=\"d2\" course=\"right\" orientation=\"incoming\"/></switch>
</connections></trackTopology></track>
<track id=\"l\"><trackTopology>
<trackBegin id=\"lb\" pos=\"0\" absPos=\"100\"><connection id=\"d1\" ref=\"c1\"/></trackBegin>
<trackEnd id=\"le\" pos=\"400\"><connection id=\"d2\" ref=\"c2\"/></trackEnd>
</trackTopology></track>
</tracks></infrastructure>
";

/// The same loop, listed from the greater mileage to the smaller.
pub const BACK: &str = "<infrastructure><tracks>
<track id=\"m\"><trackTopology>
<trackBegin id=\"mb\" pos=\"0\" absPos=\"600\"><openEnd/></trackBegin>
<trackEnd id=\"me\" pos=\"600\" absPos=\"0\"><openEnd/></trackEnd>
<connections>
<switch id=\"s1\" pos=\"100\" absPos=\"500\">
<connection id=\"c1\" ref=\"d1\" course=\"right\" orientation=\"outgoing\"/></switch>
<switch id=\"s2\" pos=\"500\" absPos=\"100\">
<connection id=\"c2\" ref=\"d2\" course=\"left\" orientation=\"incoming\"/></switch>
</connections></trackTopology></track>
<track id=\"l\"><trackTopology>
<trackBegin id=\"lb\" pos=\"0\" absPos=\"500\"><connection id=\"d1\" ref=\"c1\"/></trackBegin>
<trackEnd id=\"le\" pos=\"400\" absPos=\"100\"><connection id=\"d2\" ref=\"c2\"/></trackEnd>
</trackTopology></track>
</tracks></infrastructure>
";

/// Two tracks and a crossover from the first up to the second.
pub const CROSS: &str = "<infrastructure><tracks>
<track id=\"p\"><trackTopology>
<trackBegin id=\"pb\" pos=\"0\" absPos=\"0\"><openEnd/></trackBegin>
<trackEnd id=\"pe\" pos=\"1000\"><openEnd/></trackEnd>
<connections>
<switch id=\"a\" pos=\"200\"><connection id=\"ca\" ref=\"xa\" course=\"left\" orientation=\"outgoing\"/></switch>
</connections></trackTopology></track>
<track id=\"q\"><trackTopology>
<trackBegin id=\"qb\" pos=\"0\" absPos=\"0\"><openEnd/></trackBegin>
<trackEnd id=\"qe\" pos=\"1000\"><openEnd/></trackEnd>
<connections>
<switch id=\"b\" pos=\"260\"><connection id=\"cb\" ref=\"xd\" course=\"left\" orientation=\"incoming\"/></switch>
</connections></trackTopology></track>
<track id=\"x\"><trackTopology>
<trackBegin id=\"xb\" pos=\"0\" absPos=\"200\"><connection id=\"xa\" ref=\"ca\"/></trackBegin>
<trackEnd id=\"xe\" pos=\"60\"><connection id=\"xd\" ref=\"cb\"/></trackEnd>
</trackTopology></track>
</tracks></infrastructure>
";

/// Two tracks and two crossovers that cross.
pub const SCISSORS: &str = "<infrastructure><tracks>
<track id=\"p\"><trackTopology>
<trackBegin id=\"pb\" pos=\"0\" absPos=\"0\"><openEnd/></trackBegin>
<trackEnd id=\"pe\" pos=\"300\"><openEnd/></trackEnd>
<connections>
<switch id=\"a1\" pos=\"100\"><connection id=\"ca1\" ref=\"xa\" course=\"left\" orientation=\"outgoing\"/></switch>
<switch id=\"b1\" pos=\"130\"><connection id=\"cb1\" ref=\"ko\" course=\"right\" orientation=\"incoming\"/></switch>
</connections></trackTopology></track>
<track id=\"q\"><trackTopology>
<trackBegin id=\"qb\" pos=\"0\" absPos=\"0\"><openEnd/></trackBegin>
<trackEnd id=\"qe\" pos=\"300\"><openEnd/></trackEnd>
<connections>
<switch id=\"a2\" pos=\"100\"><connection id=\"ca2\" ref=\"ki\" course=\"right\" orientation=\"outgoing\"/></switch>
<switch id=\"b2\" pos=\"130\"><connection id=\"cb2\" ref=\"xd\" course=\"left\" orientation=\"incoming\"/></switch>
</connections></trackTopology></track>
<track id=\"x\"><trackTopology>
<trackBegin id=\"xb\" pos=\"0\" absPos=\"100\"><connection id=\"xa\" ref=\"ca1\"/></trackBegin>
<trackEnd id=\"xe\" pos=\"30\"><connection id=\"xd\" ref=\"cb2\"/></trackEnd>
<connections>
<crossing id=\"k\" pos=\"15\"><connection id=\"ki\" ref=\"ca2\" orientation=\"incoming\"/>
<connection id=\"ko\" ref=\"cb1\" course=\"right\" orientation=\"outgoing\"/></crossing>
</connections></trackTopology></track>
</tracks></infrastructure>
";
