//! Scripts without choices and cancels, and their outcomes, which `bench/script_table.py` works
//! out from the definitions.

/// The sizes of both rings and the position at which they begin, a script, and the first lines of
/// its report.
pub type Row = ((u32, u32, u32), &'static str, &'static str);

/// Scripts that the files of a folder answer as those in memory do.
pub fn rows() -> [Row; 31] {
    [
        (
            (8, 16, 0),
            "file 3 68656c6c6f\nread 3 0 5\n",
            "out 0 5 68656c6c6f\n",
        ),
        (
            (8, 16, 0),
            "file 3 68656c6c6f\nread 3 3 4\n",
            "out 0 2 6c6f0000\n",
        ),
        ((8, 16, 0), "read 9 0 1\n", "out 0 -9 00\n"),
        ((8, 16, 0), "file 1 ab\ntruncate 1 3\n", "out 0 0 -\n"),
        (
            (8, 16, 0),
            "file 1 -\nwrite 1 16777215 00\n",
            "out 0 1 00\n",
        ),
        (
            (1, 2, 0),
            "nop\nnop\nnop\n",
            "out 0 0 -\nout 1 0 -\nout 2 0 -\n",
        ),
        ((2, 4, 4294967295), "nop\nnop\n", "out 0 0 -\nout 1 0 -\n"),
        (
            (32768, 65536, 0),
            "file 3 68656c6c6f\nread 3 0 5\n",
            "out 0 5 68656c6c6f\n",
        ),
        (
            (2, 4, 0),
            "nop\nnop\nnop drain\nnop\nnop\n",
            "out 0 0 -\nout 1 0 -\nout 2 0 -\nout 3 0 -\nout 4 0 -\n",
        ),
        (
            (1, 2, 0),
            "file 1 -\nwrite 1 0 aa\nread 1 0 1 drain\nwrite 1 0 bb\n",
            "out 0 1 aa\nout 1 1 aa\nout 2 1 bb\n",
        ),
        (
            (8, 16, 0),
            "nop\nnop drain\nnop\n",
            "out 0 0 -\nout 1 0 -\nout 2 0 -\n",
        ),
        (
            (4, 4, 0),
            "nop drain\nnop\nnop drain\nnop\nnop\nnop drain\n",
            "out 0 0 -\nout 1 0 -\nout 2 0 -\nout 3 0 -\nout 4 0 -\nout 5 0 -\n",
        ),
        (
            (8, 16, 0),
            "file 3 ab\nread 3 0 2 link\nwrite 3 0 cc\n",
            "out 0 1 ab00\nout 1 -125 cc\n",
        ),
        (
            (8, 16, 0),
            "read 9 0 1 link\nnop link\nnop\nnop\n",
            "out 0 -9 00\nout 1 -125 -\nout 2 -125 -\nout 3 0 -\n",
        ),
        (
            (8, 16, 0),
            "file 1 -\nwrite 1 5 - link\nread 1 0 0 link\ntruncate 1 2\nread 1 0 4\n",
            "out 0 0 -\nout 1 0 -\nout 2 0 -\nout 3 2 00000000\n",
        ),
        (
            (4, 8, 0),
            "file 2 0102\nfsync 2 link\nfsync 3 link\nfsync 2\nfsync 2\n",
            "out 0 0 -\nout 1 -9 -\nout 2 -125 -\nout 3 0 -\n",
        ),
        ((8, 16, 0), "nop link\n", "out 0 0 -\n"),
        (
            (8, 16, 0),
            "file 3 ab\nread 3 0 1 link\nwrite 3 0 cc\n",
            "out 0 1 ab\nout 1 1 cc\n",
        ),
        (
            (8, 16, 0),
            "file 3 ab\nread 3 0 2 hard\nwrite 3 0 cc\n",
            "out 0 1 ab00\nout 1 1 cc\n",
        ),
        (
            (8, 16, 0),
            "nop link\nread 9 0 1 hard\ntruncate 9 0 link\nnop\n",
            "out 0 0 -\nout 1 -9 00\nout 2 -9 -\nout 3 -125 -\n",
        ),
        (
            (8, 16, 0),
            "read 9 0 1 hard\nnop link\nfsync 9 link\nnop\nnop\n",
            "out 0 -9 00\nout 1 0 -\nout 2 -9 -\nout 3 -125 -\nout 4 0 -\n",
        ),
        (
            (2, 4, 0),
            "file 1 -\nread 1 0 1 link\nnop link\nnop link\nnop\nnop\n",
            "out 0 0 00\nout 1 -125 -\nout 2 -125 -\nout 3 -125 -\nout 4 0 -\n",
        ),
        (
            (1, 2, 0),
            "file 1 00\nread 1 0 2 link\nwrite 1 0 11\nread 1 0 1\n",
            "out 0 1 0000\nout 1 -125 11\nout 2 1 00\n",
        ),
        (
            (8, 16, 0),
            "nop quiet link\nnop\n",
            "out 0 quiet -\nout 1 0 -\n",
        ),
        (
            (8, 16, 0),
            "file 1 ab\nnop quiet link\nfsync 1 quiet link\nread 1 0 1\nnop\n",
            "out 0 quiet -\nout 1 quiet -\nout 2 1 ab\nout 3 0 -\n",
        ),
        (
            (8, 16, 0),
            "fsync 9 quiet link\nnop\n",
            "out 0 -9 -\nout 1 -125 -\n",
        ),
        (
            (8, 16, 0),
            "nop\nnop drain\nnop drain quiet link\nnop\nnop\n",
            "out 0 0 -\nout 1 0 -\nout 2 quiet -\nout 3 0 -\nout 4 0 -\n",
        ),
        (
            (8, 16, 0),
            "file 1 ab\nread 9 0 1 link\ntruncate 1 0 quiet link\nread 1 0 1\nread 1 0 1\n",
            "out 0 -9 00\nout 1 -125 -\nout 2 -125 00\nout 3 1 ab\n",
        ),
        (
            (8, 16, 0),
            "file 1 aabb\ntruncate 1 1 quiet hard\nread 1 0 2\nnop\n",
            "out 0 quiet -\nout 1 1 aa00\nout 2 0 -\n",
        ),
        (
            (1, 1, 0),
            "nop quiet link\nnop quiet link\nnop\n",
            "out 0 quiet -\nout 1 quiet -\nout 2 0 -\n",
        ),
        (
            (1, 2, 0),
            "nop quiet link\nnop\n",
            "out 0 quiet -\nout 1 0 -\n",
        ),
    ]
}
