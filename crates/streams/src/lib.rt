#![tactic(auto)]

// Streams of bytes, as definitions alone: any reader that takes them one by one and answers each. However a stream is cut
// into calls, the answers and the reader after them are those of the whole.
