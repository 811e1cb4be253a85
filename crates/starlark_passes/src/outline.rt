//! What is visible of a module from outside: its statements at the top, its loads, and where its statements are.
pub mod ast_load;
pub mod locations;
pub mod top_level_stmts;
