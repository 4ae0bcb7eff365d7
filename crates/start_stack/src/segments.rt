//! The segments of a program in its first memory.
ghost use Rattle.std.specs.Prelude.{◌≡◌, ◌≢◌, ℕ, ◌+◌, ◌<◌, ◌≤◌, Err, length, map, OnOk, IfOk, All, bit_or, slice_index, if◌then◌else◌};
ghost use Rattle.std.specs.FinMap.{len};
ghost use Rattle.elf_image.specs.Loading.{segment_span, IsValidSegment};
ghost use Rattle.elf_image.specs.Span.{pages_touched};
ghost use Rattle.start_stack.specs.FirstMemory.{first_page, end_page, top_page, touches, page_protection, with_segment_pages, with_segment_bytes, with_page_protections, with_segments, no_memory};

use crate::error::StartError;
use crate::pages::{map_pages, protect_page, write_bytes};
use elf_image::Segment;
use guest_space::Space;
use kernel_core::address_space::PAGE_SIZE;
use std::alloc::{AllocError, Global};

/// The number of the first page that the segment touches.
fn first_page(segment: &Segment) -> u32
    ensures { result ≡ first_page segment.now }
{
    segment.vaddr / PAGE_SIZE
}

/// The number of the page behind the last one that the segment touches.
fn end_page(segment: &Segment) -> u32
    requires { IsValidSegment segment.now }
    ensures value { result ≡ end_page segment.now }
    ensures low { first_page segment.now < result }
    ensures high { result ≤ 0x7F7F0 }
{
    (segment.vaddr + segment.memsz + (PAGE_SIZE - 1)) / PAGE_SIZE
}

/// The number of the page behind the highest segment, 0 where there is none.
pub(crate) fn top_page(segments: &[Segment]) -> u32
    requires { All IsValidSegment segments.now }
    ensures value { result ≡ top_page segments.now }
    ensures high { result ≤ 0x7F7F0 }
{
    let mut top = 0;
    for segment in segments {
        top = top.max(end_page(segment));
    }
    top
}

/// Puts the segments of a program into a memory without pages.
pub(crate) fn load_segments(
    alloc: Global,
    space: &mut Space,
    segments: &[Segment],
) -> Result<(), StartError>
    requires empty { space.old ≡ no_memory }
    requires valid { All IsValidSegment segments.now }
    requires few { pages_touched (map segment_span segments.now) ≤ 120000 }
    ensures ok { OnOk result (space.new ≡ with_segments space.old segments.now) }
    ensures room { OnOk result (len space.new.pages ≤ 120000) }
    ensures memory { result ≢ Err StartError.TooLong }
{
    map_segments(space, segments)?;
    fill_segments(space, segments)?;
    let protections = page_protections(alloc, segments)?;
    protect_pages(space, &protections);
    Ok(())
}

/// Maps each page that the segments touch, as zeros that may be read and written.
fn map_segments(space: &mut Space, segments: &[Segment]) -> Result<(), StartError>
    requires empty { space.old ≡ no_memory }
    requires valid { All IsValidSegment segments.now }
    requires few { pages_touched (map segment_span segments.now) ≤ 120000 }
    ensures ok { OnOk result (space.new ≡ with_segment_pages space.old segments.now) }
    ensures room { OnOk result (len space.new.pages ≤ 120000) }
    ensures memory { result ≢ Err StartError.TooLong }
{
    for segment in segments {
        let first = first_page(segment);
        map_pages(space, first, end_page(segment) - first)?;
    }
    Ok(())
}

/// Writes the bytes that the segments have from the file.
fn fill_segments(space: &mut Space, segments: &[Segment]) -> Result<(), StartError>
    requires mapped { space.old ≡ with_segment_pages no_memory segments.now }
    requires valid { All IsValidSegment segments.now }
    ensures ok { OnOk result (space.new ≡ with_segment_bytes space.old segments.now) }
    ensures memory { result ≢ Err StartError.TooLong }
{
    for segment in segments {
        write_bytes(space, segment.vaddr, segment.bytes.as_slice())?;
    }
    Ok(())
}

/// The union of the protections of the segments that touch a page, for each page below the top.
fn page_protections(alloc: Global, segments: &[Segment]) -> Result<Vec<u8>, AllocError>
    requires { All IsValidSegment segments.now }
    ensures len { IfOk result (λ table. length table.items ≡ top_page segments.now) }
    ensures each { IfOk result (λ table. (q : ℕ) → q < length table.items → slice_index table.items q ≡ page_protection segments.now q) }
{
    let mut protections = zeros(alloc, top_page(segments) as usize)?;
    for segment in segments {
        unite(&mut protections, segment);
    }
    Ok(protections)
}

/// So many zeros.
fn zeros(alloc: Global, count: usize) -> Result<Vec<u8>, AllocError>
    ensures len { IfOk result (λ table. length table.items ≡ count) }
    ensures each { IfOk result (λ table. (q : ℕ) → slice_index table.items q ≡ 0) }
{
    vec![in alloc; 0; count]
}

/// Adds the segment's protection to that of each page that it touches.
fn unite(protections: &mut [u8], segment: &Segment)
    requires valid { IsValidSegment segment.now }
    requires room { end_page segment.now ≤ length protections.old }
    ensures { (q : ℕ) → slice_index protections.new q ≡ (if touches segment.now q then bit_or (slice_index protections.old q) segment.now.prot else slice_index protections.old q) }
{
    for page in first_page(segment)..end_page(segment) {
        protections[page as usize] |= segment.prot;
    }
}

/// Gives each page below the table's length that is there its protection in the table.
fn protect_pages(space: &mut Space, protections: &[u8])
    requires room { length protections.now ≤ 0x7F7F0 }
    requires each { All (λ protection. protection ≤ 7) protections.now }
    ensures { space.new ≡ with_page_protections space.old (slice_index protections.now) (length protections.now) }
{
    let mut page = 0;
    for protection in protections {
        protect_page(space, page, *protection);
        page += 1;
    }
}
