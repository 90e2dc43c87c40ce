//! Scripts with marks, cancels, quiet jobs and choices over small rings, and their reports,
//! which `bench/script_table.py` works out from the definitions.

/// The sizes of both rings and the position at which they begin, a script, and its report.
pub type Row = ((u32, u32, u32), &'static str, &'static str);

/// Jobs without marks, up to the last byte of a file and over small rings.
pub fn plain() -> [Row; 9] {
    [
        (
            (8, 16, 0),
            "file 3 68656c6c6f\nread 3 0 5\n",
            "out 0 5 68656c6c6f\nturn 1\ntake 0\npost 0 5\nend\n",
        ),
        (
            (8, 16, 0),
            "file 3 68656c6c6f\nread 3 3 4\n",
            "out 0 2 6c6f0000\nturn 1\ntake 0\npost 0 2\nend\n",
        ),
        (
            (8, 16, 0),
            "read 9 0 1\n",
            "out 0 -9 00\nturn 1\ntake 0\npost 0 -9\nend\n",
        ),
        (
            (8, 16, 0),
            "file 1 ab\ntruncate 1 3\n",
            "out 0 0 -\nturn 1\ntake 0\npost 0 0\nend\n",
        ),
        (
            (8, 16, 0),
            "file 1 -\nwrite 1 16777216 00\n",
            "out 0 -27 00\nturn 1\ntake 0\npost 0 -27\nend\n",
        ),
        (
            (8, 16, 0),
            "file 1 -\nwrite 1 16777215 00\n",
            "out 0 1 00\nturn 1\ntake 0\npost 0 1\nend\n",
        ),
        (
            (1, 2, 0),
            "nop\nnop\nnop\n",
            "out 0 0 -\nout 1 0 -\nout 2 0 -\nturn 1\ntake 0\npost 0 0\nturn 1\ntake 1\npost 1 0\nturn 1\ntake 2\npost 2 0\nend\n",
        ),
        (
            (2, 4, 4294967295),
            "nop\nnop\n",
            "out 0 0 -\nout 1 0 -\nturn 2\ntake 0\ntake 1\npost 0 0\npost 1 0\nend\n",
        ),
        (
            (32768, 65536, 0),
            "file 3 68656c6c6f\nread 3 0 5\n",
            "out 0 5 68656c6c6f\nturn 1\ntake 0\npost 0 5\nend\n",
        ),
    ]
}

/// Drained jobs wait for all before them, and all behind wait for them.
pub fn drained() -> [Row; 10] {
    [
        (
            (2, 4, 0),
            "nop\nnop\nnop drain\nnop\nnop\n",
            "out 0 0 -\nout 1 0 -\nout 2 0 -\nout 3 0 -\nout 4 0 -\nturn 2\ntake 0\ntake 1\npost 0 0\npost 1 0\nturn 2\ntake 2\ntake 3\npost 2 0\npost 3 0\nturn 1\ntake 4\npost 4 0\nend\n",
        ),
        (
            (1, 2, 0),
            "file 1 -\nwrite 1 0 aa\nread 1 0 1 drain\nwrite 1 0 bb\n",
            "out 0 1 aa\nout 1 1 aa\nout 2 1 bb\nturn 1\ntake 0\npost 0 1\nturn 1\ntake 1\npost 1 1\nturn 1\ntake 2\npost 2 1\nend\n",
        ),
        (
            (8, 16, 0),
            "choose 2\nnop\nnop drain\n",
            "out 0 0 -\nout 1 0 -\nturn 2\ntake 0\ntake 1\npost 0 0\nturn 0\npost 1 0\nend\n",
        ),
        (
            (8, 16, 0),
            "choose 5\nnop\nnop\nnop drain\nnop\n",
            "out 0 0 -\nout 1 0 -\nout 2 0 -\nout 3 0 -\nturn 4\ntake 0\ntake 1\ntake 2\ntake 3\npost 0 0\npost 1 0\npost 2 0\npost 3 0\nend\n",
        ),
        (
            (8, 16, 0),
            "choose 3\nchoose 3\nfile 1 -\nwrite 1 0 aa\nwrite 1 1 bb drain\nread 1 0 2 drain\n",
            "out 0 1 aa\nout 1 1 bb\nout 2 2 aabb\nturn 3\ntake 0\ntake 1\ntake 2\npost 0 1\npost 1 1\npost 2 2\nend\n",
        ),
        (
            (8, 16, 0),
            "nop\nnop drain\nnop\n",
            "out 0 0 -\nout 1 0 -\nout 2 0 -\nturn 3\ntake 0\ntake 1\ntake 2\npost 0 0\npost 1 0\npost 2 0\nend\n",
        ),
        (
            (4, 4, 0),
            "nop drain\nnop\nnop drain\nnop\nnop\nnop drain\n",
            "out 0 0 -\nout 1 0 -\nout 2 0 -\nout 3 0 -\nout 4 0 -\nout 5 0 -\nturn 4\ntake 0\ntake 1\ntake 2\ntake 3\npost 0 0\npost 1 0\npost 2 0\npost 3 0\nturn 2\ntake 4\ntake 5\npost 4 0\npost 5 0\nend\n",
        ),
        (
            (8, 16, 0),
            "choose 3\nnop\nnop drain\nnop\n",
            "out 0 0 -\nout 1 0 -\nout 2 0 -\nturn 3\ntake 0\ntake 1\ntake 2\npost 0 0\npost 1 0\npost 2 0\nend\n",
        ),
        (
            (8, 16, 0),
            "choose 0\nnop drain\nnop drain\n",
            "out 0 0 -\nout 1 0 -\nturn 2\ntake 0\ntake 1\npost 0 0\nturn 0\npost 1 0\nend\n",
        ),
        (
            (8, 16, 0),
            "choose 7\nnop\nnop\nnop\nnop drain\nnop\n",
            "out 0 0 -\nout 1 0 -\nout 2 0 -\nout 3 0 -\nout 4 0 -\nturn 5\ntake 0\ntake 1\ntake 2\ntake 3\ntake 4\npost 0 0\npost 1 0\npost 2 0\npost 3 0\npost 4 0\nend\n",
        ),
    ]
}

/// A soft link is cut where its job fails or comes short.
pub fn soft_links() -> [Row; 7] {
    [
        (
            (8, 16, 0),
            "file 3 ab\nread 3 0 2 link\nwrite 3 0 cc\n",
            "out 0 1 ab00\nout 1 -125 cc\nturn 2\ntake 0\ntake 1\npost 0 1\npost 1 -125\nend\n",
        ),
        (
            (8, 16, 0),
            "read 9 0 1 link\nnop link\nnop\nnop\n",
            "out 0 -9 00\nout 1 -125 -\nout 2 -125 -\nout 3 0 -\nturn 4\ntake 0\ntake 1\ntake 2\ntake 3\npost 0 -9\npost 1 -125\npost 2 -125\npost 3 0\nend\n",
        ),
        (
            (8, 16, 0),
            "file 1 -\nwrite 1 16777216 00 link\nwrite 1 0 11\nread 1 0 1\n",
            "out 0 -27 00\nout 1 -125 11\nout 2 0 00\nturn 3\ntake 0\ntake 1\ntake 2\npost 0 -27\npost 1 -125\npost 2 0\nend\n",
        ),
        (
            (8, 16, 0),
            "file 1 -\nwrite 1 5 - link\nread 1 0 0 link\ntruncate 1 2\nread 1 0 4\n",
            "out 0 0 -\nout 1 0 -\nout 2 0 -\nout 3 2 00000000\nturn 4\ntake 0\ntake 1\ntake 2\ntake 3\npost 0 0\npost 1 0\npost 2 0\npost 3 2\nend\n",
        ),
        (
            (4, 8, 0),
            "file 2 0102\nfsync 2 link\nfsync 3 link\nfsync 2\nfsync 2\n",
            "out 0 0 -\nout 1 -9 -\nout 2 -125 -\nout 3 0 -\nturn 4\ntake 0\ntake 1\ntake 2\ntake 3\npost 0 0\npost 1 -9\npost 2 -125\npost 3 0\nend\n",
        ),
        (
            (8, 16, 0),
            "nop link\n",
            "out 0 0 -\nturn 1\ntake 0\npost 0 0\nend\n",
        ),
        (
            (8, 16, 0),
            "file 3 ab\nread 3 0 1 link\nwrite 3 0 cc\n",
            "out 0 1 ab\nout 1 1 cc\nturn 2\ntake 0\ntake 1\npost 0 1\npost 1 1\nend\n",
        ),
    ]
}

/// A hard link isn't cut by its own job's result.
pub fn hard_links() -> [Row; 5] {
    [
        (
            (8, 16, 0),
            "file 3 ab\nread 3 0 2 hard\nwrite 3 0 cc\n",
            "out 0 1 ab00\nout 1 1 cc\nturn 2\ntake 0\ntake 1\npost 0 1\npost 1 1\nend\n",
        ),
        (
            (8, 16, 0),
            "nop link\nread 9 0 1 hard\ntruncate 9 0 link\nnop\n",
            "out 0 0 -\nout 1 -9 00\nout 2 -9 -\nout 3 -125 -\nturn 4\ntake 0\ntake 1\ntake 2\ntake 3\npost 0 0\npost 1 -9\npost 2 -9\npost 3 -125\nend\n",
        ),
        (
            (8, 16, 0),
            "choose 0\nchoose 0\nnop hard\nnop hard\nnop\n",
            "out 0 0 -\nout 1 0 -\nout 2 0 -\nturn 3\ntake 0\ntake 1\ntake 2\npost 0 0\nturn 0\npost 1 0\nturn 0\npost 2 0\nend\n",
        ),
        (
            (8, 16, 0),
            "file 1 aabb\ntruncate 1 16777217 hard\ntruncate 1 1 link\nread 1 0 2 link\nnop\n",
            "out 0 -27 -\nout 1 0 -\nout 2 1 aa00\nout 3 -125 -\nturn 4\ntake 0\ntake 1\ntake 2\ntake 3\npost 0 -27\npost 1 0\npost 2 1\npost 3 -125\nend\n",
        ),
        (
            (8, 16, 0),
            "read 9 0 1 hard\nnop link\nfsync 9 link\nnop\nnop\n",
            "out 0 -9 00\nout 1 0 -\nout 2 -9 -\nout 3 -125 -\nout 4 0 -\nturn 5\ntake 0\ntake 1\ntake 2\ntake 3\ntake 4\npost 0 -9\npost 1 0\npost 2 -9\npost 3 -125\npost 4 0\nend\n",
        ),
    ]
}

/// A linked job is waited for over turns and choices.
pub fn links_over_turns() -> [Row; 4] {
    [
        (
            (8, 16, 0),
            "choose 3\nnop link\nnop\nnop\n",
            "out 0 0 -\nout 1 0 -\nout 2 0 -\nturn 3\ntake 0\ntake 1\ntake 2\npost 2 0\npost 0 0\npost 1 0\nend\n",
        ),
        (
            (2, 4, 0),
            "file 1 -\nread 1 0 1 link\nnop link\nnop link\nnop\nnop\n",
            "out 0 0 00\nout 1 -125 -\nout 2 -125 -\nout 3 -125 -\nout 4 0 -\nturn 2\ntake 0\ntake 1\npost 0 0\npost 1 -125\nturn 2\ntake 2\ntake 3\npost 2 -125\npost 3 -125\nturn 1\ntake 4\npost 4 0\nend\n",
        ),
        (
            (1, 2, 0),
            "file 1 00\nread 1 0 2 link\nwrite 1 0 11\nread 1 0 1\n",
            "out 0 1 0000\nout 1 -125 11\nout 2 1 00\nturn 1\ntake 0\npost 0 1\nturn 1\ntake 1\npost 1 -125\nturn 1\ntake 2\npost 2 1\nend\n",
        ),
        (
            (8, 16, 0),
            "choose 5\nnop link\nnop\nnop\nnop link\nnop\n",
            "out 0 0 -\nout 1 0 -\nout 2 0 -\nout 3 0 -\nout 4 0 -\nturn 5\ntake 0\ntake 1\ntake 2\ntake 3\ntake 4\npost 3 0\npost 0 0\npost 1 0\npost 2 0\npost 4 0\nend\n",
        ),
    ]
}

/// A cancel marks another job that is taken and open; a marked job changes nothing.
pub fn canceled() -> [Row; 5] {
    [
        (
            (8, 16, 0),
            "choose 2\nfile 3 ab\nread 3 0 1\ncancel 0\n",
            "out 0 -125 00\nout 1 0 -\nturn 2\ntake 0\ntake 1\npost 1 0\nturn 0\npost 0 -125\nend\n",
        ),
        (
            (8, 16, 0),
            "choose 3\nfile 1 -\nwrite 1 0 ff\ncancel 0\nread 1 0 1\n",
            "out 0 -125 ff\nout 1 0 -\nout 2 0 00\nturn 3\ntake 0\ntake 1\ntake 2\npost 1 0\npost 0 -125\npost 2 0\nend\n",
        ),
        (
            (8, 16, 0),
            "choose 5\nnop link\nnop\ncancel 1\n",
            "out 0 0 -\nout 1 0 -\nout 2 -2 -\nturn 3\ntake 0\ntake 1\ntake 2\npost 0 0\npost 1 0\npost 2 -2\nend\n",
        ),
        (
            (8, 16, 0),
            "choose 3\nfile 1 0a\ntruncate 1 0\ncancel 0 hard\nread 1 0 1\n",
            "out 0 -125 -\nout 1 0 -\nout 2 1 0a\nturn 3\ntake 0\ntake 1\ntake 2\npost 1 0\npost 0 -125\npost 2 1\nend\n",
        ),
        (
            (8, 16, 0),
            "cancel 1\nnop\n",
            "out 0 0 -\nout 1 -125 -\nturn 2\ntake 0\ntake 1\npost 0 0\npost 1 -125\nend\n",
        ),
    ]
}

/// A cancel of what isn't open finds none, and of several the first marks.
pub fn cancels() -> [Row; 10] {
    [
        (
            (8, 16, 0),
            "cancel 7 link\nnop\nnop\n",
            "out 0 -2 -\nout 1 -125 -\nout 2 0 -\nturn 3\ntake 0\ntake 1\ntake 2\npost 0 -2\npost 1 -125\npost 2 0\nend\n",
        ),
        (
            (1, 2, 0),
            "cancel 1\nnop\ncancel 1\n",
            "out 0 -2 -\nout 1 0 -\nout 2 -2 -\nturn 1\ntake 0\npost 0 -2\nturn 1\ntake 1\npost 1 0\nturn 1\ntake 2\npost 2 -2\nend\n",
        ),
        (
            (8, 16, 0),
            "nop drain\ncancel 0\ncancel 1 drain\n",
            "out 0 0 -\nout 1 -2 -\nout 2 -2 -\nturn 3\ntake 0\ntake 1\ntake 2\npost 0 0\npost 1 -2\npost 2 -2\nend\n",
        ),
        (
            (8, 16, 0),
            "choose 5\nchoose 5\nnop\nnop\ncancel 0\ncancel 0\n",
            "out 0 -125 -\nout 1 0 -\nout 2 0 -\nout 3 -2 -\nturn 4\ntake 0\ntake 1\ntake 2\ntake 3\npost 2 0\npost 3 -2\npost 0 -125\npost 1 0\nend\n",
        ),
        (
            (8, 16, 0),
            "choose 3\nnop\ncancel 0 link\nnop\n",
            "out 0 -125 -\nout 1 0 -\nout 2 0 -\nturn 3\ntake 0\ntake 1\ntake 2\npost 1 0\npost 0 -125\npost 2 0\nend\n",
        ),
        (
            (8, 16, 0),
            "choose 3\nchoose 3\nnop\ncancel 2\ncancel 1\n",
            "out 0 0 -\nout 1 0 -\nout 2 -125 -\nturn 3\ntake 0\ntake 1\ntake 2\npost 1 0\npost 2 -125\npost 0 0\nend\n",
        ),
        (
            (8, 16, 0),
            "cancel 0\n",
            "out 0 -2 -\nturn 1\ntake 0\npost 0 -2\nend\n",
        ),
        (
            (8, 16, 0),
            "choose 3\nnop\ncancel 18446744073709551615\n",
            "out 0 0 -\nout 1 -2 -\nturn 2\ntake 0\ntake 1\npost 1 -2\npost 0 0\nend\n",
        ),
        (
            (8, 16, 0),
            "choose 5\nnop\nnop\ncancel 0\ncancel 0\n",
            "out 0 -125 -\nout 1 0 -\nout 2 0 -\nout 3 -2 -\nturn 4\ntake 0\ntake 1\ntake 2\ntake 3\npost 2 0\npost 0 -125\npost 1 0\npost 3 -2\nend\n",
        ),
        (
            (8, 16, 0),
            "choose 3\ncancel 1\ncancel 0\n",
            "out 0 -125 -\nout 1 0 -\nturn 2\ntake 0\ntake 1\npost 1 0\npost 0 -125\nend\n",
        ),
    ]
}

/// A choice names the ready job that settles next, and an even one ends the turn.
pub fn chosen() -> [Row; 11] {
    [
        (
            (8, 16, 0),
            "choose 0\nchoose 0\nchoose 0\nnop\nnop\nnop\n",
            "out 0 0 -\nout 1 0 -\nout 2 0 -\nturn 3\ntake 0\ntake 1\ntake 2\npost 0 0\nturn 0\npost 1 0\nturn 0\npost 2 0\nend\n",
        ),
        (
            (8, 16, 0),
            "choose 4294967294\nnop\nnop\nnop\n",
            "out 0 0 -\nout 1 0 -\nout 2 0 -\nturn 3\ntake 0\ntake 1\ntake 2\npost 1 0\nturn 0\npost 0 0\npost 2 0\nend\n",
        ),
        (
            (8, 16, 0),
            "file 1 -\nchoose 5\nwrite 1 0 01\nchoose 3\nwrite 1 0 02\nwrite 1 0 03\nread 1 0 1\n",
            "out 0 1 01\nout 1 1 02\nout 2 1 03\nout 3 1 01\nturn 4\ntake 0\ntake 1\ntake 2\ntake 3\npost 2 1\npost 1 1\npost 0 1\npost 3 1\nend\n",
        ),
        (
            (8, 16, 0),
            "choose 3\nchoose 2\nnop link\nnop\nnop drain\nnop\n",
            "out 0 0 -\nout 1 0 -\nout 2 0 -\nout 3 0 -\nturn 4\ntake 0\ntake 1\ntake 2\ntake 3\npost 0 0\npost 1 0\nturn 0\npost 2 0\npost 3 0\nend\n",
        ),
        (
            (2, 4, 4294967295),
            "choose 2\nnop\nnop\n",
            "out 0 0 -\nout 1 0 -\nturn 2\ntake 0\ntake 1\npost 1 0\nturn 0\npost 0 0\nend\n",
        ),
        (
            (2, 2, 0),
            "choose 3\nchoose 4\nnop\nnop\nnop\nnop\n",
            "out 0 0 -\nout 1 0 -\nout 2 0 -\nout 3 0 -\nturn 2\ntake 0\ntake 1\npost 1 0\npost 0 0\nturn 2\ntake 2\ntake 3\npost 2 0\npost 3 0\nend\n",
        ),
        (
            (4, 4, 0),
            "choose 6\nchoose 1\nchoose 4\nnop\nnop\nnop\nnop\nnop\nnop\n",
            "out 0 0 -\nout 1 0 -\nout 2 0 -\nout 3 0 -\nout 4 0 -\nout 5 0 -\nturn 4\ntake 0\ntake 1\ntake 2\ntake 3\npost 3 0\nturn 2\ntake 4\ntake 5\npost 0 0\npost 4 0\nturn 0\npost 1 0\npost 2 0\npost 5 0\nend\n",
        ),
        (
            (1, 1, 0),
            "choose 2\nchoose 9\nnop\nnop\n",
            "out 0 0 -\nout 1 0 -\nturn 1\ntake 0\npost 0 0\nturn 1\ntake 1\npost 1 0\nend\n",
        ),
        (
            (8, 16, 0),
            "choose 2\nnop\nnop\n",
            "out 0 0 -\nout 1 0 -\nturn 2\ntake 0\ntake 1\npost 1 0\nturn 0\npost 0 0\nend\n",
        ),
        (
            (8, 16, 0),
            "choose 4294967295\nnop\nnop\nnop\n",
            "out 0 0 -\nout 1 0 -\nout 2 0 -\nturn 3\ntake 0\ntake 1\ntake 2\npost 1 0\npost 0 0\npost 2 0\nend\n",
        ),
        (
            (2, 8, 0),
            "choose 2\nchoose 2\nnop\nnop\nnop\nnop\nnop\n",
            "out 0 0 -\nout 1 0 -\nout 2 0 -\nout 3 0 -\nout 4 0 -\nturn 2\ntake 0\ntake 1\npost 1 0\nturn 2\ntake 2\ntake 3\npost 2 0\nturn 1\ntake 4\npost 0 0\npost 3 0\npost 4 0\nend\n",
        ),
    ]
}

/// Nothing is posted for a quiet job that succeeds, and one that fails is posted.
pub fn quiet() -> [Row; 9] {
    [
        (
            (8, 16, 0),
            "nop quiet link\nnop\n",
            "out 0 quiet -\nout 1 0 -\nturn 2\ntake 0\ntake 1\nquiet 0\npost 1 0\nend\n",
        ),
        (
            (8, 16, 0),
            "file 1 ab\nnop quiet link\nfsync 1 quiet link\nread 1 0 1\nnop\n",
            "out 0 quiet -\nout 1 quiet -\nout 2 1 ab\nout 3 0 -\nturn 4\ntake 0\ntake 1\ntake 2\ntake 3\nquiet 0\nquiet 1\npost 2 1\npost 3 0\nend\n",
        ),
        (
            (8, 16, 0),
            "fsync 9 quiet link\nnop\n",
            "out 0 -9 -\nout 1 -125 -\nturn 2\ntake 0\ntake 1\npost 0 -9\npost 1 -125\nend\n",
        ),
        (
            (8, 16, 0),
            "nop\nnop drain\nnop drain quiet link\nnop\nnop\n",
            "out 0 0 -\nout 1 0 -\nout 2 quiet -\nout 3 0 -\nout 4 0 -\nturn 5\ntake 0\ntake 1\ntake 2\ntake 3\ntake 4\npost 0 0\npost 1 0\nquiet 2\npost 3 0\npost 4 0\nend\n",
        ),
        (
            (8, 16, 0),
            "file 1 ab\nread 9 0 1 link\ntruncate 1 0 quiet link\nread 1 0 1\nread 1 0 1\n",
            "out 0 -9 00\nout 1 -125 -\nout 2 -125 00\nout 3 1 ab\nturn 4\ntake 0\ntake 1\ntake 2\ntake 3\npost 0 -9\npost 1 -125\npost 2 -125\npost 3 1\nend\n",
        ),
        (
            (8, 16, 0),
            "choose 3\nfile 1 ab\ntruncate 1 0 quiet link\nread 1 0 1\ncancel 0\nread 1 0 1\n",
            "out 0 -125 -\nout 1 -125 00\nout 2 0 -\nout 3 1 ab\nturn 4\ntake 0\ntake 1\ntake 2\ntake 3\npost 2 0\npost 0 -125\npost 1 -125\npost 3 1\nend\n",
        ),
        (
            (8, 16, 0),
            "choose 3\nfile 1 ab\nwrite 1 0 ff\ncancel 0 quiet link\nread 1 0 1\n",
            "out 0 -125 ff\nout 1 quiet -\nout 2 1 ab\nturn 3\ntake 0\ntake 1\ntake 2\nquiet 1\npost 0 -125\npost 2 1\nend\n",
        ),
        (
            (8, 16, 0),
            "nop\ncancel 0 quiet link\nnop\nnop\n",
            "out 0 0 -\nout 1 -2 -\nout 2 -125 -\nout 3 0 -\nturn 4\ntake 0\ntake 1\ntake 2\ntake 3\npost 0 0\npost 1 -2\npost 2 -125\npost 3 0\nend\n",
        ),
        (
            (8, 16, 0),
            "file 1 aabb\ntruncate 1 1 quiet hard\nread 1 0 2\nnop\n",
            "out 0 quiet -\nout 1 1 aa00\nout 2 0 -\nturn 3\ntake 0\ntake 1\ntake 2\nquiet 0\npost 1 1\npost 2 0\nend\n",
        ),
    ]
}

/// A quiet end uses up a choice, needs room but takes none, and ends no turn.
pub fn quiet_over_turns() -> [Row; 6] {
    [
        (
            (8, 16, 0),
            "choose 0\nnop quiet link\nnop\n",
            "out 0 quiet -\nout 1 0 -\nturn 2\ntake 0\ntake 1\nquiet 0\npost 1 0\nend\n",
        ),
        (
            (2, 2, 0),
            "choose 2\nchoose 4\nchoose 0\nnop\nnop\nnop\nnop quiet hard\nnop quiet link\nnop\n",
            "out 0 0 -\nout 1 0 -\nout 2 0 -\nout 3 quiet -\nout 4 quiet -\nout 5 0 -\nturn 2\ntake 0\ntake 1\npost 1 0\nturn 2\ntake 2\ntake 3\nquiet 3\npost 0 0\nturn 2\ntake 4\ntake 5\npost 2 0\nquiet 4\npost 5 0\nend\n",
        ),
        (
            (8, 16, 0),
            "choose 3\nchoose 5\nchoose 7\nnop quiet link\nnop\nnop quiet link\nnop\nnop\n",
            "out 0 quiet -\nout 1 0 -\nout 2 quiet -\nout 3 0 -\nout 4 0 -\nturn 5\ntake 0\ntake 1\ntake 2\ntake 3\ntake 4\nquiet 2\npost 4 0\npost 3 0\nquiet 0\npost 1 0\nend\n",
        ),
        (
            (2, 2, 0),
            "choose 2\nnop\nnop\nnop\nnop quiet link\nnop\n",
            "out 0 0 -\nout 1 0 -\nout 2 0 -\nout 3 quiet -\nout 4 0 -\nturn 2\ntake 0\ntake 1\npost 1 0\nturn 2\ntake 2\ntake 3\npost 0 0\npost 2 0\nturn 1\ntake 4\nquiet 3\npost 4 0\nend\n",
        ),
        (
            (1, 1, 0),
            "nop quiet link\nnop quiet link\nnop\n",
            "out 0 quiet -\nout 1 quiet -\nout 2 0 -\nturn 1\ntake 0\nquiet 0\nturn 1\ntake 1\nquiet 1\nturn 1\ntake 2\npost 2 0\nend\n",
        ),
        (
            (1, 2, 0),
            "nop quiet link\nnop\n",
            "out 0 quiet -\nout 1 0 -\nturn 1\ntake 0\nquiet 0\nturn 1\ntake 1\npost 1 0\nend\n",
        ),
    ]
}
