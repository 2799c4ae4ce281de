//! The longest words that are paths, and words that are longer.
//!
//! What else is no path, and the superblock, stored runs show.
use pf_layout::Path;
use std::alloc::Global;

/// 17 names; without the last one it is a path.
const NAMES: &[u8] = b"/a/b/c/d/e/f/g/h/i/j/k/l/m/n/o/p/q";

/// Whether so many bytes of a word are a path.
fn is_path(alloc: Global, word: &[u8], len: usize) -> bool {
    len <= word.len() && matches!(Path::parse(alloc, &word[..len]), Ok(_))
}

/// Ten names of 24 bytes and one of 5, 256 bytes in all; without the last byte it is a path.
fn long_word() -> [u8; 256] {
    let mut word = [b'a'; 256];
    for place in 0..11 {
        word[25 * place] = b'/';
    }
    word
}

#[test]
fn paths_have_bounds(rt: HostRuntime) {
    let alloc = rt.alloc();
    assert!(rt; is_path(alloc, NAMES, 32));
    assert!(rt; !is_path(alloc, NAMES, 34));
    let word = long_word();
    assert!(rt; is_path(alloc, &word, 255));
    assert!(rt; !is_path(alloc, &word, 256));
}
