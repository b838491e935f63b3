//! Tests of managers by the steps of single calls, with pages (`pages`) and with blocks (`blocks`), which `calls`
//! makes, and by words that are lent (`words`); of `SlicedHeap` and `QuotaHeap`, by the steps of single calls
//! (`sliced`, `quota`); of `LargeHeap` at its limits, and by the steps of its calls (`large`); of `save` and `load`, by
//! images worked out by hand (`saved`, with the calls of `images`) and by the largest one (`largest_image`); and of
//! `library_example` (`example`).
mod blocks;
mod calls;
mod example;
mod images;
mod large;
mod largest_image;
mod pages;
mod quota;
mod saved;
mod sliced;
mod words;
