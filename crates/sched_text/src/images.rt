//! The bytes of an image, read from the text.

ghost use Rattle.std.specs.Prelude.{◌≡◌, ◌≤◌, ◌<◌, ◌-◌, ◌++◌, [], length, min, take, drop};
ghost use Rattle.std.specs.Prelude.{OnOk, IfOk};
ghost use Rattle.sched_text.specs.Causes.{is_read};
ghost use Rattle.ctr_port.specs.Counts.{HasCause};
ghost use Rattle.ctr_port.specs.InHand.{text_of};
ghost use Rattle.sched_text.specs.Images.{ImageAnswer};

use crate::faults::{LineFault, Reason, ScheduleFault};
use crate::limits::WINDOW;
use crate::schedule::Image;
use crate::window::Window;
use ctr_port::{Got, NoMemory, Source};
use std::alloc::Global;

// Moves bytes in hand behind those of the image, as far as it wants more.
fn take_front(window: &mut Window, image: &mut Image, len: usize) -> Result<(), NoMemory>
    requires { length image.old ≤ len }
    ensures image { OnOk result (image.new ≡ image.old
        ++ take (min (len - length image.old) (length window.old)) window.old) }
    ensures hand { length window.new ≤ WINDOW }
    ensures window { OnOk result
        (window.new ≡ drop (min (len - length image.old) (length window.old)) window.old) }
{
    let count = (len - image.items().len()).min(window.bytes().len());
    image.extend(window.bytes().split_at(count).0)?;
    window.pass(count);
    Ok(())
}

/// An image of so many bytes. `line` is the number of the line `images`. No byte behind the image is
/// asked for, so nothing is in hand afterwards where no more than the image was before.
pub(crate) fn read_image<S: Source>(
    alloc: Global,
    window: &mut Window,
    source: &mut S,
    line: u32,
    len: u32,
) -> Result<Image, ScheduleFault>
    ensures images { ImageAnswer line len (text_of window.old (S.left source.old))
        (text_of window.new (S.left source.new)) window.new result }
    ensures cause { HasCause is_read (S.faults source.old) (S.faults source.new) result }
    ensures hand { length window.new ≤ WINDOW }
    ensures size { IfOk result (λ image. length image ≡ len) }
    ensures still { len ≤ length window.old → source.new ≡ source.old }
    ensures exact { IfOk result (λ _. length window.old ≤ len → window.new ≡ []) }
{
    let wanted = len as usize;
    let mut image = Image::new(alloc);
    take_front(window, &mut image, wanted)?;
    while image.items().len() < wanted {
        match window.fill(source, wanted - image.items().len()) {
            Got::Bytes(_) => {}
            Got::End => {
                return Err(ScheduleFault::Line(LineFault {
                    line,
                    reason: Reason::Cut,
                }));
            }
            Got::Failed => return Err(ScheduleFault::ReadFault),
        }
        take_front(window, &mut image, wanted)?;
    }
    Ok(image)
}
