// The C interface, as a library: structs go by value, a lent buffer as its address and its length. Each answer holds the number of a
// refusal, which is an enum in the crates behind these functions (`answers`). `capi_c` exports each function for C, under its name here;
// `include/yebkuzan.h` declares them.
#![tactic(auto)]

mod cpu;
mod cpu_tables;
mod resolver;
mod string_lists;
mod text;
mod tree;

pub use cpu::{
    CPU_BLOCK, PARENT_BLOCK, YebkuzanProperty, yebkuzan_find_property, yebkuzan_lookup_reason,
};
pub use cpu_tables::{
    yebkuzan_bus_frequency, yebkuzan_pa_features, yebkuzan_page_sizes, yebkuzan_pi_features,
    yebkuzan_radix_encodings, yebkuzan_segment_page_sizes, yebkuzan_segment_sizes,
};
pub use resolver::{
    yebkuzan_chain, yebkuzan_enable, yebkuzan_enable_by_table, yebkuzan_permitted,
    yebkuzan_reach_table, yebkuzan_well_formed, yebkuzan_words,
};
pub use string_lists::yebkuzan_string_place;
pub use text::{yebkuzan_read_unit, yebkuzan_write_unit};
pub use tree::{YebkuzanRead, yebkuzan_read};
