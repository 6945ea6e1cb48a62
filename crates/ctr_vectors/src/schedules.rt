//! The texts of schedules.

use std::alloc::{AllocError, Global};

/// A schedule: its lines up to `images`, in groups with how often each comes; the words of its
/// images; and its commands up to `end`, in groups again.
#[derive(Clone, Copy)]
pub struct Schedule {
    pub head: &'static [(&'static str, u32)],
    pub images: &'static [&'static [u32]],
    pub commands: &'static [(&'static str, u32)],
}

fn append_lines(text: &mut Vec<u8>, groups: &[(&str, u32)]) -> Result<(), AllocError> {
    for (lines, times) in groups {
        for _ in 0..*times {
            text.extend_from_slice(lines.as_bytes())?;
        }
    }
    Ok(())
}

// Appends images as bytes, the lowest of each word first.
fn append_images(text: &mut Vec<u8>, images: &[&[u32]]) -> Result<(), AllocError> {
    for image in images {
        for word in *image {
            text.extend_from_slice(&word.to_le_bytes())?;
        }
    }
    Ok(())
}

/// The text of a schedule of these lines up to `images`, these images and these commands up to `end`.
pub fn schedule_text(
    alloc: Global,
    head: &[(&str, u32)],
    images: &[&[u32]],
    commands: &[(&str, u32)],
) -> Result<Vec<u8>, AllocError> {
    let mut text = Vec::new(alloc);
    append_lines(&mut text, head)?;
    text.extend_from_slice(b"images\n")?;
    append_images(&mut text, images)?;
    append_lines(&mut text, commands)?;
    text.extend_from_slice(b"end\n")?;
    Ok(text)
}

impl Schedule {
    /// The whole text, up to the line `end`.
    pub fn text(&self, alloc: Global) -> Result<Vec<u8>, AllocError> {
        schedule_text(alloc, self.head, self.images, self.commands)
    }
}
