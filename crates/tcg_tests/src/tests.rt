mod alignments;
mod iterators;
