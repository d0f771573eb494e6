// What C links: the functions of `c_api` under their names, each with the clauses that it has there. include/koshirga.h declares them.
// A crate is a library or a static library, so that the exports stand in one of their own, each a call of c_api's function.
#![tactic(auto)]

mod arithmetic;
mod buffers;
mod grids;
mod lattices;
mod meshes;
mod vectors;
