//! Where a byte stands in its page.
ghost use Rattle.std.specs.Prelude.{◌≡◌, ◌%◌, ◌<◌, ◌≤◌};
ghost use Rattle.paged_bytes.specs.Pages.{page_size, count_in_page};

/// The number of bytes of a page. (This project's own.)
pub const PAGE_SIZE: usize = 4096;

/// The place of a byte in its page, from 0 to 4095.
pub fn place_in_page(at: u64) -> usize
    ensures place { result ≡ at % page_size }
    ensures inside { result < page_size }
{
    (at % PAGE_SIZE as u64) as usize
}

/// How many of `count` bytes from `at` on lie in the page of the first one.
pub fn count_in_page(at: u64, count: usize) -> usize
    ensures value { result ≡ count_in_page at count }
    ensures within { result ≤ count }
{
    count.min(PAGE_SIZE - place_in_page(at))
}
