//! Files merged whose sources or outputs fail, rest, or hold long stripes, and the pages' lines.
mod files;
mod pages;
mod resting;
mod stripes;

pub(crate) use files::LISTS;
