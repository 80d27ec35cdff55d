//! Scripts that are refused, beside their whole texts.

/// Scripts beside the texts of the first line that breaks the grammar, or beside the report where none does.
pub const GRAMMAR: [(&[u8], &str); 30] = [
    (b"", REPORT),
    (b"buffer a Y8 -0 00 2 2\n\n", REPORT),
    (b"buffer a  Y8 0 0 1 1\r\n", REPORT),
    (b"frob", "line 1: UnknownCommand\n"),
    (b"node x frob", "line 1: UnknownCommand\n"),
    (b"node x", "line 1: Words\n"),
    (b"commit now", "line 1: Words\n"),
    (b"buffer A Y8 0 0 1 1", "line 1: Name\n"),
    (b"buffer a Y9 0 0 1 1", "line 1: Name\n"),
    (b"load a 0 0 1 1 a/b", "line 1: Name\n"),
    (b"node b box 1 LOOP a", "line 1: Name\n"),
    (b"buffer a Y8 0 0 -1 1", "line 1: Rect\n"),
    (b"buffer a Y8 0 0 40000 1", "line 1: Rect\n"),
    (b"render i 8 0 0 129 1 o", "line 1: Rect\n"),
    (b"render i 9 0 0 1 1 o", "line 1: Number\n"),
    (b"node b box 65 NONE a", "line 1: Number\n"),
    (b"fill a 0 0 1 1 4294967296", "line 1: Number\n"),
    (b"node t threshold 4294967296 a", "line 1: Number\n"),
    (b"node g gain 65536 1 a", "line 1: Number\n"),
    (b"node g gain 1 65536 a", "line 1: Number\n"),
    (b"buffer a Y64 0 0 1 1", "line 1: Name\n"),
    (b"buffer a Y8 +1 0 1 1", "line 1: Number\n"),
    (b"buffer a Y8 00000000000 0 1 1", "line 1: Number\n"),
    (b"endwatch", "line 1: Order\n"),
    (b"\x80", "line 1: NotAscii\n"),
    (b"# \x80", "line 1: NotAscii\n"),
    (b"commit\r\r\n", "line 1: NotAscii\n"),
    (b"# frob\n\n\tfrob\n", "line 3: UnknownCommand\n"),
    (b"undo\n\ncommit now\n", "line 3: Words\n"),
    (b"\nwatch i 0 0 1 1 1 1 w\ncommit\n", "line 2: Order\n"),
];

/// The text of a run that renders nothing.
pub const REPORT: &str = "report applied 0 reused 0\n";

/// Scripts beside the text of a line whose command isn't built yet.
pub const UNBUILT: [(&[u8], &str); 2] = [
    (
        b"watch i 0 0 1 1 1 1 w\nendwatch\n",
        "line 1: UnknownCommand\n",
    ),
    (
        b"node k color Y8 0 0 1 1 5\n\ncommit\nwatch k 0 0 1 1 1 1 w\ncommit\nendwatch\n",
        "line 4: UnknownCommand\n",
    ),
];

/// Scripts beside the text of a line that is refused for what buffers and files are there.
pub const REFUSED_BUFFERS: [(&[u8], &str); 21] = [
    // A raster of too few bytes, and one of too many.
    (
        b"buffer a YA8 0 0 2 2\n\
          load a 0 0 2 2 in.raw\n",
        "line 2: WrongSize\n",
    ),
    (
        b"buffer a Y8 0 0 2 2\n\
          load a 0 0 2 1 in.raw\n",
        "line 2: WrongSize\n",
    ),
    // An absent one; a rectangle outside the buffer before it; no buffer before both.
    (
        b"buffer a YA8 0 0 2 2\n\
          load a 0 0 2 2 no.raw\n",
        "line 2: Absent\n",
    ),
    (
        b"buffer a YA8 0 0 2 2\n\
          load a 0 0 3 2 no.raw\n",
        "line 2: OutOfBounds\n",
    ),
    (
        b"buffer a YA8 0 0 2 2\n\
          load b 0 0 3 2 no.raw\n",
        "line 2: UnknownBuffer\n",
    ),
    // A part doesn't have the position.
    (
        b"buffer a Y8 0 0 4 1\n\
          sub s a 1 0 3 1\n\
          fill s 0 0 1 1 9\n",
        "line 3: OutOfBounds\n",
    ),
    // Two samples for one; a sample above the largest.
    (
        b"buffer a Y8 0 0 1 1\n\
          fill a 0 0 1 1 1 2\n",
        "line 2: Formats\n",
    ),
    (
        b"buffer a RGB8 0 0 1 1\n\
          fill a 0 0 1 1 1 2 256\n",
        "line 2: Formats\n",
    ),
    (
        b"buffer a Y16 0 0 1 1\n\
          fill a 0 0 1 1 65536\n",
        "line 2: Formats\n",
    ),
    // One above the largest of all formats is no number.
    (
        b"buffer a Y32 0 0 1 1\n\
          fill a 0 0 1 1 4294967296\n",
        "line 2: Number\n",
    ),
    // Sixteen bytes a pixel.
    (
        b"buffer a RGBA32 0 0 2 2\n\
          load a 0 0 2 2 in.raw\n",
        "line 2: WrongSize\n",
    ),
    // A copy between formats; one that is moved out of its target, or of the plane.
    (
        b"buffer a Y8 0 0 1 1\n\
          buffer b Y16 0 0 1 1\n\
          copy a b 0 0 1 1 0 0\n",
        "line 3: Formats\n",
    ),
    (
        b"buffer a Y8 0 0 2 1\n\
          copy a a 0 0 2 1 1 0\n",
        "line 2: OutOfBounds\n",
    ),
    (
        b"buffer a Y8 0 0 2 1\n\
          copy a a 0 0 2 1 33554432 0\n",
        "line 2: OutOfBounds\n",
    ),
    // Names of no buffer.
    (b"sub s a 0 0 1 1\n", "line 1: UnknownBuffer\n"),
    (b"dup b a\n", "line 1: UnknownBuffer\n"),
    (
        b"buffer a Y8 0 0 1 1\n\
          copy a b 0 0 1 1 0 0\n",
        "line 2: UnknownBuffer\n",
    ),
    (b"grab a 0 NONE 0 0 1 1 o\n", "line 1: UnknownBuffer\n"),
    // A name that is taken.
    (
        b"buffer a Y8 0 0 1 1\n\
          \n\
          buffer a Y8 0 0 1 1\n",
        "line 3: NameTaken\n",
    ),
    (
        b"buffer a Y8 0 0 1 1\n\
          sub a a 0 0 1 1\n",
        "line 2: NameTaken\n",
    ),
    (
        b"buffer a Y8 0 0 1 1\n\
          dup a a\n",
        "line 2: NameTaken\n",
    ),
];

/// Scripts beside the text of a line that is refused for what nodes are there.
pub const REFUSED_GRAPHS: [(&[u8], &str); 15] = [
    // An input that isn't there.
    (
        b"node i invert zz\n\
          commit",
        "line 2: UnknownInput\n",
    ),
    // A node that is an input is dropped.
    (
        b"node k color Y8 0 0 1 1 5\n\
          node i invert k\n\
          commit\n\
          drop k\n\
          commit",
        "line 5: InUse\n",
    ),
    // Gray without alpha is composited.
    (
        b"node k color Y8 0 0 1 1 5\n\
          node u over k k\n\
          commit",
        "line 3: Formats\n",
    ),
    // A box grows past the largest one.
    (
        b"node k color Y8 0 0 32768 1 5\n\
          node b box 1 NONE k\n\
          commit",
        "line 3: Bounds\n",
    ),
    // An input stands later in the list: a node that is set again keeps its position.
    (
        b"node a color Y8 0 0 1 1 5\n\
          node b invert a\n\
          commit\n\
          node a invert b\n\
          commit",
        "line 5: UnknownInput\n",
    ),
    // A source of no buffer.
    (
        b"node s source a\n\
          commit",
        "line 2: UnknownInput\n",
    ),
    // A node that isn't there is dropped.
    (
        b"drop k\n\
          commit",
        "line 2: UnknownInput\n",
    ),
    // A sample is above the format's largest.
    (
        b"node k color Y8 0 0 1 1 256\n\
          commit",
        "line 2: Formats\n",
    ),
    (
        b"buffer a Y16 0 0 1 1\n\
          node s source a\n\
          node t threshold 65536 s\n\
          commit",
        "line 4: Formats\n",
    ),
    // A factor of a gain has 16 bits, whatever the format.
    (
        b"buffer a Y32 0 0 1 1\n\
          node s source a\n\
          node g gain 65536 1 s\n\
          commit",
        "line 3: Number\n",
    ),
    // A mask of two bytes a sample for samples of four, and a sum of both.
    (
        b"node k color RGBA32 0 0 1 1 1 2 3 4\n\
          node m color Y16 0 0 1 1 5\n\
          node n mask k m\n\
          commit",
        "line 4: Formats\n",
    ),
    (
        b"node k color Y32 0 0 1 1 5\n\
          node m color Y16 0 0 1 1 5\n\
          node n add k m\n\
          commit",
        "line 4: Formats\n",
    ),
    // Nothing was committed.
    (b"undo", "line 1: NothingToUndo\n"),
    // Nothing was undone.
    (b"redo", "line 1: NothingToRedo\n"),
    // A node that isn't committed is rendered.
    (
        b"node q color Y8 0 0 1 1 5\n\
          render q 0 0 0 1 1 o",
        "line 2: UnknownNode\n",
    ),
];
