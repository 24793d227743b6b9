// The texts, by table.

// A text's name, and its bytes.
pub struct Whole(pub &'static str, pub &'static [u8]);

// A line's number in the example, and what stands in its place.
pub struct Edit(pub usize, pub &'static str);

// What is changed at each line of the example, and what stands before the line and behind it.
pub struct Sweep(pub &'static str, pub &'static str, pub &'static str);

// How many parents, rows and `pmt` rows, and what stands behind them.
pub struct Made(pub u8, pub u8, pub u8, pub &'static str);

// With how many lines of the example a text begins, with what it goes on, and how long it is.
pub struct Filled(pub &'static str, pub usize, pub char, pub usize);

pub const WHOLE: &[Whole] = &[
    Whole("an empty text", b""),
    Whole("a line feed", b"\n"),
    Whole("a space", b" "),
    Whole("a zero byte", b"\0"),
    Whole(
        "a byte above 127 in the names",
        b"ticks backlog copies tsi\xff\n2700000 4 1 7\n",
    ),
    Whole(
        "a byte above 127 in a number",
        b"ticks backlog copies tsid\n2700000 \xb4 1 7\n",
    ),
    Whole(
        "a zero byte in a number",
        b"ticks backlog copies tsid\n2700000 4\0 1 7\n",
    ),
    Whole("half of the names", b"ticks backlog"),
    Whole(
        "half of the values",
        b"ticks backlog copies tsid\n2700000 4",
    ),
    Whole(
        "line feeds by carriage returns",
        b"ticks backlog copies tsid\r2700000 4 1 7\r\rparent rate\r",
    ),
];

pub const SWEEPS: &[Sweep] = &[
    Sweep("an empty line before", "\n", ""),
    Sweep("a space before", " ", ""),
    Sweep("a space behind", "", " "),
    Sweep("a carriage return behind", "", "\r"),
    Sweep("a tab before", "\t", ""),
    Sweep("a line of one letter before", "x\n", ""),
];

pub const EDITS: &[Edit] = &[
    // the names of a table, each to the letter
    Edit(1, "Ticks backlog copies tsid"),
    Edit(1, "ticks  backlog copies tsid"),
    Edit(1, "ticks backlog copies"),
    Edit(1, "ticks backlog copies tsid onid"),
    Edit(1, "backlog ticks copies tsid"),
    Edit(1, "parent rate"),
    Edit(4, "parent"),
    Edit(4, "parent  rate"),
    Edit(4, "parents rate"),
    Edit(4, "rate parent"),
    Edit(8, "parent pid out kind"),
    Edit(8, "parent pid out kind  service"),
    Edit(8, "parent pid out kind services"),
    Edit(8, "parent pid out service kind"),
    // both ends of each range of the settings, and one outside
    Edit(2, "9999 4 1 7"),
    Edit(2, "10000 4 1 7"),
    Edit(2, "40000000 4 1 7"),
    Edit(2, "40000001 4 1 7"),
    Edit(2, "2700000 0 1 7"),
    Edit(2, "2700000 1 1 7"),
    Edit(2, "2700000 1024 1 7"),
    Edit(2, "2700000 1025 1 7"),
    Edit(2, "2700000 4 0 7"),
    Edit(2, "2700000 4 1 7"),
    Edit(2, "2700000 4 16 7"),
    Edit(2, "2700000 4 17 7"),
    Edit(2, "2700000 4 1 0"),
    Edit(2, "2700000 4 1 65535"),
    Edit(2, "2700000 4 1 65536"),
    // a number has 1 to 10 digits and no leading zero
    Edit(2, "9999999999 4 1 7"),
    Edit(2, "4297667296 4 1 7"),
    Edit(2, "10000000000 4 1 7"),
    Edit(2, "18446744073712251616 4 1 7"),
    Edit(2, "02700000 4 1 7"),
    Edit(2, "2700000 04 1 7"),
    Edit(2, "2700000 4 1 00"),
    Edit(2, "2700000 4 1 07"),
    Edit(2, "2700000 +4 1 7"),
    Edit(2, "2700000 -4 1 7"),
    Edit(2, "2700000 4.0 1 7"),
    Edit(2, "2,700,000 4 1 7"),
    Edit(2, "2700000 0x4 1 7"),
    Edit(2, "2700000 4 one 7"),
    Edit(2, "2700000 4 1 /"),
    Edit(2, "2700000 4 1 :"),
    Edit(2, "2700000 4 1 7é"),
    // one space parts fields: an empty field, a double, a leading and a trailing space, a tab
    Edit(2, "2700000 4  7"),
    Edit(2, "2700000  4 1 7"),
    Edit(2, " 4 1 7"),
    Edit(2, " 2700000 4 1 7"),
    Edit(2, "2700000 4 1 "),
    Edit(2, "2700000 4 1 7 "),
    Edit(2, "2700000\t4\t1\t7"),
    Edit(2, "   "),
    Edit(2, "    "),
    // the field count first, then the leftmost wrong field
    Edit(2, "x 4 1"),
    Edit(2, "2700000 4 1 7 9"),
    Edit(2, "9999 4 1 7 9"),
    Edit(2, "9999 x 1 7"),
    Edit(2, "x 0 0 65536"),
    Edit(2, "2700000 4 17 x"),
    // the first table has exactly one line of values
    Edit(2, ""),
    Edit(2, "2700000 4 1 7\n2700000 4 1 7"),
    Edit(2, "2700000 4 1 7\nx"),
    Edit(3, "parent rate"),
    Edit(3, " "),
    Edit(3, "\n"),
    // both ends of a rate's range, and one outside
    Edit(5, "0 99999"),
    Edit(5, "0 100000"),
    Edit(5, "0 100000000"),
    Edit(5, "0 100000001"),
    Edit(6, "1 50000"),
    Edit(6, "1 020000000"),
    Edit(6, "1 20000000000"),
    // parents stand in order
    Edit(5, "1 40000000"),
    Edit(5, "00 40000000"),
    Edit(5, "x 40000000"),
    Edit(6, "0 20000000"),
    Edit(6, "2 20000000"),
    Edit(6, "4 20000000"),
    Edit(6, "2 x"),
    Edit(6, "1"),
    Edit(6, "1 20000000 0"),
    Edit(6, "1  20000000"),
    Edit(6, "1 "),
    // one to four parents, up to the empty line
    Edit(5, ""),
    Edit(6, ""),
    Edit(6, "1 20000000\n2 20000000\n3 20000000"),
    Edit(6, "1 20000000\n2 20000000\n3 20000000\n4 20000000"),
    Edit(6, "1 20000000\n2 20000000\n3 20000000\nx"),
    Edit(7, "parent pid out kind service"),
    Edit(7, " "),
    Edit(7, "\n"),
    Edit(7, "2 20000000\n3 20000000\nparent pid out kind service"),
    // both ends of each range of a row, and one outside
    Edit(10, "1 32 48 pmt 3"),
    Edit(10, "4 32 48 pmt 3"),
    Edit(10, "0 0 48 pmt 3"),
    Edit(10, "0 8190 48 pmt 3"),
    Edit(10, "0 8191 48 pmt 3"),
    Edit(10, "0 32 31 pmt 3"),
    Edit(10, "0 32 32 pmt 3"),
    Edit(10, "0 32 8190 pmt 3"),
    Edit(10, "0 32 8191 pmt 3"),
    Edit(10, "0 32 48 pmt 0"),
    Edit(10, "0 32 48 pmt 1"),
    Edit(10, "0 32 48 pmt 65535"),
    Edit(10, "0 32 48 pmt 65536"),
    Edit(10, "0 32 48 pass 0"),
    Edit(10, "0 32 48 pass 1"),
    Edit(10, "0 32 48 pass 00"),
    // a kind is one of two words
    Edit(10, "0 32 48 Pmt 3"),
    Edit(10, "0 32 48 pm 3"),
    Edit(10, "0 32 48 pmts 3"),
    Edit(10, "0 32 48 passe 0"),
    Edit(10, "0 32 48 drop 0"),
    Edit(10, "0 32 48 0 0"),
    Edit(10, "0 32 48  3"),
    Edit(10, "0 32 48 drop x"),
    // the field count of a row first, then the leftmost wrong field
    Edit(10, "0 32 48 pmt"),
    Edit(10, "0 32 48 pmt 3 4"),
    Edit(10, "9 9999 9 drop"),
    Edit(10, "0 32  48 pmt 3"),
    Edit(10, "x 8191 31 drop x"),
    Edit(10, "0 8191 31 drop x"),
    Edit(10, "0 32 31 drop x"),
    Edit(10, "0 32 48 pmt "),
    // an empty line in the map: before the first row, and behind it
    Edit(9, ""),
    Edit(10, ""),
    Edit(10, "0 32 48 pmt 3\n"),
    Edit(10, "0 32 48 pmt 3\n\n0 33 49 pmt 4"),
    // the first faulty line is named, before any clash
    Edit(2, "2700000 4 1 7\n\nparent rates\n0 x"),
    Edit(10, "0 32 31 pmt 3\n0 x 48 pmt 3"),
    Edit(10, "0 256 512 pass 0\n0 32 31 pmt 3"),
    Edit(10, "3 32 48 pmt 3\n0 33 49 pmt"),
    // a row that shares a pair of parent and pid, an out, or a service
    Edit(10, "0 256 48 pmt 3"),
    Edit(10, "1 256 48 pmt 3"),
    Edit(10, "1 32 512 pmt 3"),
    Edit(10, "0 32 256 pmt 3"),
    Edit(10, "0 32 48 pmt 3\n1 33 49 pmt 3"),
    Edit(10, "0 32 48 pmt 3\n1 33 49 pmt 4"),
    Edit(10, "0 32 48 pass 0\n1 33 49 pass 0"),
    Edit(10, "0 32 48 pmt 3\n0 256 49 pass 0"),
    Edit(10, "0 32 48 pmt 3\n1 33 512 pass 0"),
    // two clashes at once, in one row and in two
    Edit(10, "0 256 512 pmt 3"),
    Edit(10, "0 256 512 pass 0"),
    Edit(10, "0 32 512 pmt 3\n0 256 49 pmt 4"),
    Edit(10, "0 32 48 pmt 3\n0 33 48 pmt 3\n0 256 49 pmt 4"),
    // a row whose parent is not listed
    Edit(9, "1 256 512 pass 0"),
    Edit(9, "2 256 512 pass 0"),
    Edit(10, "2 32 48 pmt 3"),
    Edit(10, "3 32 48 pmt 3"),
    Edit(10, "3 32 512 pmt 3"),
    Edit(10, "0 32 512 pmt 3\n2 33 49 pmt 4"),
    Edit(10, "2 32 48 pmt 3\n0 256 49 pmt 4"),
    Edit(6, "1 20000000\n2 20000000"),
];

pub const MADE: &[Made] = &[
    // one to four parents
    Made(0, 1, 1, ""),
    Made(1, 1, 1, ""),
    Made(4, 1, 1, ""),
    Made(5, 1, 1, ""),
    Made(1, 0, 0, ""),
    Made(1, 0, 0, "3 100 2000 pass 0"),
    Made(3, 0, 0, "3 100 2000 pass 0"),
    Made(4, 0, 0, "3 100 2000 pass 0"),
    // one to 64 rows, and a line too many is seen before its fields
    Made(1, 63, 42, ""),
    Made(1, 64, 42, ""),
    Made(1, 64, 0, ""),
    Made(4, 64, 42, ""),
    Made(1, 65, 42, ""),
    Made(4, 65, 42, ""),
    Made(1, 64, 42, "\n"),
    Made(1, 64, 42, "x\n"),
    Made(1, 64, 42, "0 99 1999 pmt 99"),
    Made(1, 63, 42, "\n"),
    Made(1, 63, 42, "x\n"),
    // at most 42 `pmt` rows, and the 43rd is seen after its fields
    Made(1, 42, 42, ""),
    Made(1, 43, 43, ""),
    Made(4, 64, 64, ""),
    Made(1, 42, 42, "0 99 1999 pass 0"),
    Made(1, 42, 42, "0 99 1999 pmt 99"),
    Made(1, 42, 42, "0 99 31 pmt 99"),
    Made(1, 42, 42, "0 99 1999 pmt 0"),
    Made(1, 42, 42, "0 99 1999 pmt"),
    Made(1, 63, 42, "0 99 1999 pmt 99"),
    Made(1, 63, 41, "0 99 1999 pmt 99"),
    Made(1, 42, 42, "0 100 2000 pmt 1"),
    Made(1, 64, 43, "x"),
    // a clash with a row far above
    Made(1, 63, 42, "0 100 1999 pass 0"),
    Made(1, 63, 42, "0 99 2000 pass 0"),
    Made(2, 63, 41, "1 100 1999 pmt 1"),
    Made(4, 63, 42, "0 162 1999 pass 0"),
    Made(1, 63, 42, "1 99 1999 pass 0"),
    Made(2, 63, 42, "1 99 1999 pass 0"),
];

pub const FILLED: &[Filled] = &[
    Filled("the example and a long line", 10, 'x', 16_383),
    Filled("the example and a long line", 10, 'x', 16_384),
    Filled("the example and a long line", 10, 'x', 16_385),
    Filled("the example and empty lines", 10, '\n', 16_384),
    Filled("the example and empty lines", 10, '\n', 16_385),
    Filled("the names and a long number", 1, '9', 16_384),
    Filled("the names and a long number", 1, '9', 16_385),
    Filled("line feeds", 0, '\n', 16_384),
    Filled("line feeds", 0, '\n', 16_385),
    Filled("line feeds", 0, '\n', 40_000),
];
