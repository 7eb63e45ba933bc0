//! Tests of memory and its parts and of images by hand-made data, which no transcript shows. They stand above what they run, so that
//! nothing below is proved again for them.
#![tactic(auto)]

#[cfg(test)]
mod cells;
#[cfg(test)]
mod images;
#[cfg(test)]
mod memory;
#[cfg(test)]
mod objects;
