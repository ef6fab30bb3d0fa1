//! What the log prints of the fault with the largest word. Texts of faults that a line can have are asked of the program.
use q_words::LineFault;
use std::alloc::Global;

// Without memory for it there is no text.
fn is_text(alloc: Global, fault: LineFault, expected: &str) -> bool {
    match format!(in alloc; "{fault}") {
        Ok(text) => text.as_str() == expected,
        Err(_) => false,
    }
}

#[test]
fn texts_of_faults(rt: HostRuntime) {
    let expected = "fault 2 Missing word 18446744073709551615";
    assert!(rt; is_text(rt.alloc(), LineFault::Missing(usize::MAX), expected));
}
