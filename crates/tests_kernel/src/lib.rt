//! Tests of kernel form and its copies: what no clause says and no row of a table can show.
//!
//! Each builder and each copy gives its value when there is memory, at a tree that has every form; copying a chain of a
//! hundred thousand parts, and letting it go, takes no stack.
#![tactic(auto)]

#[cfg(test)]
mod of_kernel_copy;
#[cfg(test)]
mod of_kernel_parts;
