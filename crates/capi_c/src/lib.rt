// The C interface, as a static library: each function of `capi`, under its name there, with its clauses. `include/yebkuzan.h` declares it
// for C. No crate can use a static library, so that each function stands here and in `capi`, on which `cases` rests.
#![tactic(auto)]

mod cpu;
mod cpu_tables;
mod resolver;
mod string_lists;
mod text;
mod tree;
