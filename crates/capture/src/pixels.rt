// Rules 6 and 7: the place of a pixel, and whether it is captured.
ghost use Rattle.std.specs.Prelude.{◌≡◌, ◌+◌, ◌-◌, ◌<◌, ◌^◌};
ghost use Rattle.rules.specs.CropWindow as crop_window;
ghost use Rattle.rules.specs.Capture as capture_rules;

use fields::{control, window};
use rules::{Capture, Scan};

// Rule 6: a line begins if HSYNC blanked at the last working edge or no line has begun in this frame.
#[tactic(auto, unfolding(rules::specs::Capture::line_begins))]
fn line_begins(s: Capture, f: Scan) -> bool
    ensures { result ≡ capture_rules.line_begins s f }
{
    s.syncs.hsync || f.lines == 0
}

// Rule 6: the lines begun and the pixels of the last with one pixel more.
#[tactic(auto, unfolding(rules::specs::Capture::next_pixel))]
pub fn next_pixel(s: Capture, f: Scan) -> Scan
    requires { (f.lines + 1 < 2 ^ 32) × (f.pixels + 1 < 2 ^ 32) }
    ensures { result ≡ capture_rules.next_pixel s f }
{
    if line_begins(s, f) {
        return Scan {
            lines: f.lines + 1,
            pixels: 1,
        };
    }
    Scan {
        pixels: f.pixels + 1,
        ..f
    }
}

// One of so many from the first on.
#[tactic(auto, unfolding(rules::specs::CropWindow::one_of))]
fn one_of(first: u32, number: u32, x: u32) -> bool
    requires { first + number < 2 ^ 32 }
    ensures { result ≡ crop_window.one_of first number x }
{
    first <= x && x < first + number
}

// Rule 7, as the manual speaks: the last pixel's line is one of the window's lines, and its clock one of the window's clocks. Both count from 0.
#[tactic(auto, unfolding(rules::specs::Capture::in_window, rules::specs::CropWindow::inside))]
fn in_window(s: Capture, f: Scan) -> bool
    ensures { result ≡ capture_rules.in_window s f }
{
    let first_line = window::vst(s.registers.cwstrt);
    let number_of_lines = window::vline(s.registers.cwsize) + 1;
    let first_clock = window::hoffcnt(s.registers.cwstrt);
    let number_of_clocks = window::capcnt(s.registers.cwsize) + 1;
    one_of(first_line, number_of_lines, f.lines.saturating_sub(1))
        && one_of(first_clock, number_of_clocks, f.pixels.saturating_sub(1))
}

// Rule 7: a pixel of a taken frame is captured if CROP is 0 or it is in the window.
#[tactic(auto, unfolding(rules::specs::Capture::captured))]
pub fn captured(s: Capture, taken: bool, f: Scan) -> bool
    ensures { result ≡ capture_rules.captured s taken f }
{
    taken && (!control::crop(s.registers.cr) || in_window(s, f))
}
