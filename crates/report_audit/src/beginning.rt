//! What an auditor makes of a trace before it reads a report.
ghost use Rattle.std.specs.Prelude.{◌≡◌, ℕ, ◌≤◌, ◌<◌, ◌^◌, ◌++◌, length, slice_get, IfOk, OnOk};
ghost use Rattle.clock_gate.specs.Trace.{IsLawfulTrace};
ghost use Rattle.vmclock_page.specs.Host.{count_of};
ghost use Rattle.lawful_report.specs.Calls.{calls_of, calls_of_client};
ghost use Rattle.lawful_report.specs.Course.{course_by, course_start};
ghost use Rattle.lawful_report.specs.Pages.{marker_of_page, row_markers};
ghost use Rattle.report_audit.specs.Auditor.{KnowsTrace, ShowsCourse, StartIsSmall};

use crate::known::Known;
use crate::pages::Pages;
use crate::progress::{Progress, push_entry};
use clock_gate::{CallRow, HostRow, List, Memory, Trace};
use lawful_report::{Call, Entry, Seen};
use segment_layout::{ImageFault, Start, admit};
use std::alloc::{AllocError, Global};

// The sequence count of the start page, or 0 without a page.
fn start_count(page: &Option<[u64; 13]>) -> u32
    ensures { result ≡ count_of page.now }
{
    match page {
        None => 0,
        Some(words) => (words[1] / 0x1_0000_0000) as u32,
    }
}

// Appends the markers of the page rows.
fn push_markers(markers: &mut Vec<u64>, host: &[HostRow]) -> Result<(), AllocError>
    ensures { OnOk result (markers.new.items ≡ markers.old.items ++ row_markers host.now) }
{
    for row in host {
        if let HostRow::Page(words) = row {
            markers.push(words[2])?;
        }
    }
    Ok(())
}

// The markers of all pages by their numbers; none without a page.
fn markers_of(alloc: Global, trace: &Trace) -> Result<Vec<u64>, AllocError>
    ensures { IfOk result (λ markers. (page : ℕ) → marker_of_page trace.now page ≡ slice_get markers.items page) }
{
    let mut markers = Vec::new(alloc);
    let Some(words) = &trace.page else {
        return Ok(markers);
    };
    markers.push(words[2])?;
    push_markers(&mut markers, trace.host.as_slice())?;
    Ok(markers)
}

// How many page rows there are.
fn page_rows(host: &[HostRow]) -> u32
    requires { length host.now ≤ 300000 }
    ensures { result ≡ length (row_markers host.now) }
{
    let mut pages = 0;
    for row in host {
        if let HostRow::Page(_) = row {
            pages += 1;
        }
    }
    pages
}

// Appends the calls of a client.
fn push_calls(calls: &mut Vec<Call>, client: u32, rows: &[CallRow]) -> Result<(), AllocError>
    requires { length rows.now ≤ 300000 }
    ensures { OnOk result (calls.new.items ≡ calls.old.items ++ calls_of_client rows.now client) }
{
    let mut number = 1;
    for row in rows {
        if row.client == client {
            let tries = row.tries;
            calls.push(Call {
                client,
                number,
                tries,
            })?;
            number += 1;
        }
    }
    Ok(())
}

// The calls, client by client.
fn calls_of(alloc: Global, trace: &Trace) -> Result<Vec<Call>, AllocError>
    requires lawful { IsLawfulTrace trace.now }
    ensures { IfOk result (λ calls. calls.items ≡ calls_of trace.now) }
{
    let mut calls = Vec::new(alloc);
    let mut client = 0;
    'clients: loop {
        if trace.clients <= client {
            return Ok(calls);
        }
        client += 1;
        push_calls(&mut calls, client, trace.calls.as_slice())?;
    }
}

// The point, the position before the first entry, and the entries that an image gives.
fn point_of(image: &Result<Start, ImageFault>) -> u64
    ensures value { result ≡ (course_by image.now).point }
    ensures small { result < 2 ^ 32 }
{
    match image {
        Ok(start) => u64::from(start.generation()),
        Err(_) => 0,
    }
}

fn before_of(image: &Result<Start, ImageFault>) -> u64
    ensures value { result ≡ (course_by image.now).before }
    ensures small { result < 2 ^ 32 }
{
    match image {
        Ok(Start::Kept(generation, _)) => u64::from(*generation / 2).saturating_sub(1),
        Ok(Start::Torn(generation)) => u64::from(*generation / 2),
        Ok(Start::Fresh) | Err(_) => 0,
    }
}

fn entries_of(alloc: Global, image: &Result<Start, ImageFault>) -> Result<Vec<Entry>, AllocError>
    ensures { IfOk result (λ entries. entries.items ≡ (course_by image.now).entries) }
{
    let mut entries = Vec::new(alloc);
    if let Ok(Start::Kept(_, rec)) = image {
        let entry = Entry {
            rec: *rec,
            replied: 1,
            page: 0,
            base: 0,
        };
        push_entry(&mut entries, entry)?;
    }
    Ok(entries)
}

/// What an auditor makes of a trace.
pub fn known_of(alloc: Global, trace: &Trace) -> Result<Known, Memory>
    requires lawful { IsLawfulTrace trace.now }
    ensures { IfOk result (KnowsTrace trace.now) }
{
    let markers = markers_of(alloc, trace)?;
    let calls = calls_of(alloc, trace)?;
    let pages = Pages {
        has_page: trace.page.is_some(),
        start: start_count(&trace.page),
        most: page_rows(trace.host.as_slice()),
    };
    let first = Seen {
        point: point_of(&admit(&trace.image, trace.layout)),
        row: 1,
        page: 0,
    };
    Ok(Known {
        pages,
        markers: List::from_vec(markers),
        calls: List::from_vec(calls),
        first,
    })
}

/// What the daemon's lines come to before the first: what the image gives.
pub fn progress_of(alloc: Global, trace: &Trace) -> Result<Progress, AllocError>
    ensures shows { IfOk result (ShowsCourse (course_start trace.now)) }
    ensures small { StartIsSmall trace.now }
{
    let image = admit(&trace.image, trace.layout);
    let (before, point) = (before_of(&image), point_of(&image));
    Ok(Progress {
        polled: 0,
        before,
        entries: entries_of(alloc, &image)?,
        point,
        row: 1,
        page: 0,
        life: None,
    })
}
