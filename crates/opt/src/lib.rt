// The flags that the arguments of rustc's options make.
#![tactic(auto)]

mod links;
mod lists;
mod one;
mod parts;
mod two;
mod years;

pub use links::link;
pub use lists::{crate_type, emit};
pub use one::{
    allow, cap_lints, color, crate_name, deny, error_format, explain, forbid, force_warn, json,
    out, out_dir, print, sysroot, target, warn, z,
};
pub use two::{cfg, codegen, extern_, extern_location, library_search_path, remap_path_prefix};
pub use years::edition;

#[cfg(test)]
mod tests;
#[cfg(test)]
mod whole_tests;
