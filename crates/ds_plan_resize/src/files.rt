//! Files that get another size.
ghost use Rattle.std.specs.Prelude.{◌≡◌, IfOk};
ghost use Rattle.ds_base.specs.Geometry.{IsGeom};
ghost use Rattle.ds_fd.specs.declared.body.Body.{Body};
ghost use Rattle.ds_image_parts.specs.Parts.{Parts};
ghost use Rattle.ds_image_parts.specs.Readings.{ReadsParts};
ghost use Rattle.ds_image.specs.SeenValues.{look_of};
ghost use Rattle.ds_plan_resize.specs.Files.{CanResize, body_of_file, body_to_size, file_to_size};

use ds_base::{Geom, Key, NodeKind};
use ds_fd::Body;
use ds_image::Seen;
use ds_plan_base::{Ending, Stop, body_of_key};

/// The body of a key's file, which may get this size and has another; otherwise what a planner asks for, or answers, before it
/// knows it.
pub fn file_to_size(geom: &Geom, seen: &Seen, key: &Key, size: u32) -> Result<Body, Stop>
    requires { IsGeom geom.now }
    ensures answer { (p : Parts) → ReadsParts geom.now (look_of seen.now) p
        → result ≡ file_to_size geom.now seen.now p key.now size }
    ensures can { IfOk result (CanResize geom.now size) }
{
    let body = file_of(body_of_key(geom, seen, key)?)?;
    resizable(body, size)
}

fn file_of(body: Body) -> Result<Body, Stop>
    ensures { result ≡ body_of_file body }
{
    match body.kind {
        Some(NodeKind::File) => Ok(body),
        _ => Err(Stop::Done(Ending::NotFile)),
    }
}

fn resizable(body: Body, size: u32) -> Result<Body, Stop>
    ensures { result ≡ body_to_size size body }
{
    if size > 12_288 {
        return Err(Stop::Done(Ending::TooBig));
    }
    if size.abs_diff(body.count) > 1024 {
        return Err(Stop::Done(Ending::TooMuch));
    }
    if size == body.count {
        return Err(Stop::Done(Ending::Sized { blocks: size }));
    }
    Ok(body)
}
