//! Cuts, and fronts that are handed through strips without a board.
ghost use Rattle.std.specs.Prelude.{◌≡◌, ◌≤◌, ◌<◌, All};
ghost use Rattle.sgm_strip.specs.Scenes.{row_length};
ghost use Rattle.sgm_strip.specs.Parcels.{IsOf};

use super::making::{parcels_of, row_of, scene_of};
use super::sums::are_whole;
use sgm_energy::Dir;
use sgm_strip::{Cut, Front, Parcel, Row, Scene, pass};
use std::alloc::Global;
use std::test::Fail;

#[test]
fn cuts_of_few_rows(rt: HostRuntime) {
    let cut = Cut::even(5, 3);
    assert!(rt; cut.strips == 3);
    assert!(rt; (cut.first(0), cut.first(1), cut.first(2)) == (0, 1, 3));
    assert!(rt; (cut.rows(0), cut.rows(1), cut.rows(2)) == (1, 2, 2));
    assert!(rt; Cut::even(1, 64).strips == 1);
}

/// Passes the front on where the strip comes next for it.
fn pass_if_next(parcel: &mut Parcel, front: &mut Front, spare: &mut Row)
    requires scene { front.old.scene ≡ parcel.old.scene }
    requires cut { front.old.cut ≡ parcel.old.cut }
    requires spare { spare.old ≡ row_length parcel.old.scene }
    ensures parcel { (parcel.new.scene ≡ parcel.old.scene) × (parcel.new.cut ≡ parcel.old.cut) }
    ensures front { (front.new.scene ≡ front.old.scene) × (front.new.cut ≡ front.old.cut) }
    ensures spare { spare.new ≡ spare.old }
{
    let dir = front.dir();
    let next = dir.position(parcel.strip(), parcel.cut().strips);
    if front.next() == next && !parcel.is_done(dir) {
        pass(parcel, front, spare, 16);
    }
}

/// Which strip comes after `k` others in a direction.
fn after(dir: Dir, k: usize, strips: usize) -> usize
    requires { k < strips }
    ensures { result < strips }
{
    if dir.offset().1 > 0 {
        k
    } else {
        strips - 1 - k
    }
}

/// Hands a front through all strips in their order.
fn hand_through(parcels: &mut Vec<Parcel>, front: &mut Front, spare: &mut Row)
    requires spare { spare.old ≡ row_length front.old.scene }
    requires kind { All (IsOf front.old.scene front.old.cut) parcels.old.items }
    ensures spare { spare.new ≡ spare.old }
    ensures kind { All (IsOf front.old.scene front.old.cut) parcels.new.items }
{
    for k in 0..parcels.len() {
        let at = after(front.dir(), k, parcels.len());
        pass_if_next(&mut parcels[at], front, spare);
    }
}

/// The parcels of a scene, through which all six fronts were handed.
fn handed_through(alloc: Global, scene: &Scene, strips: u32) -> Result<Vec<Parcel>, Fail>
    requires { (1 ≤ strips) × (strips ≤ 64) }
{
    let size = scene.size();
    let cut = Cut::even(size.height, strips);
    let mut parcels = parcels_of(alloc, scene, cut)?;
    let mut spare = Row::make(alloc, size, scene.span())?;
    for number in 0..6 {
        let dir = Dir::from_front(number).ok_or("front")?;
        if dir.is_level() {
            return Err("level")?;
        }
        let mut front = Front::make(alloc, scene, cut, dir)?;
        hand_through(&mut parcels, &mut front, &mut spare);
    }
    Ok(parcels)
}

#[test]
fn sums_are_those_of_whole_rays_whatever_the_strips(rt: HostRuntime) -> Result<(), Fail> {
    let scene = scene_of(rt.alloc())?;
    for strips in 1..4 {
        let parcels = handed_through(rt.alloc(), &scene, strips)?;
        assert!(rt; are_whole(&parcels, strips as usize), "{strips} strips");
    }
    Ok(())
}

fn shared<T: Send + Sync>(value: &T) -> &T
    ensures { result.now ≡ value.now }
{
    value
}

fn shares_parcel(alloc: Global, scene: &Scene, cut: Cut) -> Result<u32, Fail>
    requires { cut.height ≡ scene.now.left.height }
{
    let parcel = Parcel::make(alloc, shared(scene), cut, 0)?;
    Ok(shared(&parcel).strip())
}

fn shares_front(alloc: Global, scene: &Scene, cut: Cut) -> Result<u32, Fail>
    requires { cut.height ≡ scene.now.left.height }
{
    let front = Front::make(alloc, scene, cut, Dir::Down)?;
    Ok(shared(&front).next())
}

fn shares_row(alloc: Global, scene: &Scene) -> Result<(), Fail> {
    let row = row_of(alloc, scene)?;
    let _ = shared(&row);
    Ok(())
}

/// The first strip of a parcel and that of a front, both shared.
fn shares_all(alloc: Global, scene: &Scene) -> Result<(u32, u32), Fail> {
    let cut = Cut::even(scene.size().height, 2);
    shares_row(alloc, scene)?;
    Ok((
        shares_parcel(alloc, scene, cut)?,
        shares_front(alloc, scene, cut)?,
    ))
}

#[test]
fn threads_may_share_and_move_them(rt: HostRuntime) -> Result<(), Fail> {
    let scene = scene_of(rt.alloc())?;
    assert!(rt; shares_all(rt.alloc(), &scene)? == (0, 0));
    Ok(())
}
