//! The line that tells of a page, or of its first fault. Each function appends its part of it.
ghost use Rattle.std.specs.Prelude.{◌≡◌, ◌++◌, OnOk};
ghost use Rattle.std.specs.String.{string_bytes};
ghost use Rattle.decode_text.specs.PageLines.{constant_part, moving_part, page_line, refused_page, page_text};

use std::alloc::AllocError;
use vmclock_page::{Page, PageFault, read_page};

#[tactic(auto, unfolding(crate::specs::PageLines::constant_part))]
fn put_constants(text: &mut String, page: &Page) -> Result<(), AllocError>
    ensures { OnOk result (string_bytes text.new ≡ string_bytes text.old ++ constant_part page.now) }
{
    let (size, counter, time_type) = (page.size, page.counter_id, page.time_type);
    write!(text, "page,{size},{counter},{time_type},")
}

#[tactic(auto, unfolding(crate::specs::PageLines::moving_part))]
fn put_moving(text: &mut String, page: &Page) -> Result<(), AllocError>
    ensures { OnOk result (string_bytes text.new ≡ string_bytes text.old ++ moving_part page.now) }
{
    let (sequence, marker) = (page.seq_count, page.disruption_marker);
    write!(text, "{sequence},{marker}\n")
}

#[tactic(auto, unfolding(crate::specs::PageLines::page_line))]
fn put_page(text: &mut String, page: &Page) -> Result<(), AllocError>
    ensures { OnOk result (string_bytes text.new ≡ string_bytes text.old ++ page_line page.now) }
{
    put_constants(text, page)?;
    put_moving(text, page)
}

#[tactic(auto, unfolding(crate::specs::PageLines::refused_page))]
fn put_refused(text: &mut String, fault: PageFault) -> Result<(), AllocError>
    ensures { OnOk result (string_bytes text.new ≡ string_bytes text.old ++ refused_page fault) }
{
    match fault {
        PageFault::Short => text.push_str("refused,short\n"),
        PageFault::Magic => text.push_str("refused,magic\n"),
        PageFault::Size(size) => write!(text, "refused,size,{size}\n"),
        PageFault::Version(version) => write!(text, "refused,version,{version}\n"),
        PageFault::Odd(count) => write!(text, "refused,odd,{count}\n"),
    }
}

/// What the bytes tell as a page, appended to a text.
#[tactic(auto, unfolding(crate::specs::PageLines::page_text))]
pub fn put_page_text(text: &mut String, bytes: &[u8]) -> Result<(), AllocError>
    ensures { OnOk result (string_bytes text.new ≡ string_bytes text.old ++ page_text bytes.now) }
{
    match read_page(bytes) {
        Ok(page) => put_page(text, &page),
        Err(fault) => put_refused(text, fault),
    }
}
