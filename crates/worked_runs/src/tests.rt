//! What isn't a comparison of bytes: numbers at work in parallel, and lines of cases that are refused.
mod gates;
mod holding;
mod lines;
mod twice;
