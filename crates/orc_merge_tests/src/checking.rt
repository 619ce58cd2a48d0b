//! What is found by `orc_check`: of sources that fail, and of files with another byte.
mod each_byte;
mod failing;
