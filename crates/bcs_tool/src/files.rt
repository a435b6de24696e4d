//! The files that the program reads and writes.
pub mod delivering;
pub mod descriptor_names;
pub mod held_output;
pub mod input_files;
pub mod new_file;
pub mod output_file;
pub mod reading;
pub mod storing;
pub mod system_file;
