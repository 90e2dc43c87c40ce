mod ends;
mod rings;
mod rounds;
mod small_side;
mod threads;
