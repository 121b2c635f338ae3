//! Raw memory for values of one type: where it starts, the places in it, and the right to give it back.
//! Only these functions follow a pointer, so only they are proved statement by statement.
ghost use Rattle.std.specs.Prelude.{◌≡◌, ℕ, ◌<◌, List, Option, Some, None, map, length, take, drop, replicate, get_or, slice_set, IfOk, ⊤};
ghost use Rattle.std.specs.Vec.Ownership.{FitsInBlock};
ghost use denote.RawPtr.{Ptr};
ghost use Rattle.vtl_pages.specs.Places.{IsFilled, IsRun};
ghost use Rattle.vtl_pages.specs.Owned.{cells_owned, cells_lent, claim_owned};

use std::alloc::{AllocError, Allocator};
use std::marker::{Model, PhantomData};
use std::mem::{align_of, size_of};
use std::slice;

/// The address at which a block starts. It owns nothing.
pub struct Start<T> {
    address: *mut T,
}

impl<T> Clone for Start<T> {
    ghost is_clone = { λ x y. y ≡ x };

    ghost is_infallible = { λ _. ⊤ };

    fn clone(&self) -> Result<Start<T>, AllocError> {
        Ok(*self)
    }
}

impl<T> Copy for Start<T> {}

/// The owner of the places from an address on. It takes no memory itself.
pub struct Cells<T> {
    mark: PhantomData<*const T>,
    ghost address: { Ptr },
    ghost places: { List (Option T) },
}

impl<T> Model for Cells<T> {
    ghost also_owns = { λ c. cells_owned T.row c.address c.places };

    ghost also_shares = { λ c _ κ. cells_lent T.row c.address c.places κ };
}

/// The right to give the block at an address back to its allocator. It takes no memory itself.
pub struct Claim<T, A: Allocator> {
    mark: PhantomData<*const (T, A)>,
    ghost address: { Ptr },
    ghost count: { ℕ },
    ghost alloc: { A },
}

impl<T, A: Allocator> Model for Claim<T, A> {
    ghost also_owns = { λ c. claim_owned T.row (A.dealloc_token c.alloc) c.address c.count };
}

// A block of empty places. It fails only if memory runs out.
pub(crate) fn allocate<T, A: Allocator>(
    alloc: &A,
    count: usize,
) -> Result<(Start<T>, Cells<T>, Claim<T, A>), AllocError>
    requires { FitsInBlock T.row count }
    ensures { IfOk result (λ r. (r.1.address ≡ r.0.address) × (r.1.places ≡ replicate count None) × (r.2.address ≡ r.0.address) × (r.2.count ≡ count) × (r.2.alloc ≡ alloc.now)) }
{
    match alloc.allocate(count * size_of::<T>(), align_of::<T>()) {
        Ok(block) => {
            let start = Start {
                address: block as *mut T,
            };
            Ok((
                start,
                Cells { mark: PhantomData },
                Claim { mark: PhantomData },
            ))
        }
        Err(error) => Err(error),
    }
}

// Gives a block of empty places back.
pub(crate) fn release<T, A: Allocator>(
    alloc: &A,
    start: Start<T>,
    count: usize,
    cells: Cells<T>,
    claim: Claim<T, A>,
)
    requires { (cells.address ≡ start.address) × (cells.places ≡ replicate count None) × (claim.address ≡ start.address) × (claim.count ≡ count) × (claim.alloc ≡ alloc.now) }
{
    let Cells { mark: _ } = cells;
    let Claim { mark: _ } = claim;
    unsafe {
        alloc.deallocate(
            start.address as *mut u8,
            count * size_of::<T>(),
            align_of::<T>(),
        );
    }
}

impl<T> Cells<T> {
    // Puts a value into an empty place.
    pub(crate) fn put(&mut self, start: Start<T>, place: usize, value: T)
        requires { (start.address ≡ self.old.address) × (place < length self.old.places) × (get_or self.old.places place None ≡ None) }
        ensures { (self.new.address ≡ self.old.address) × (self.new.places ≡ slice_set self.old.places place (Some value)) }
    {
        unsafe { start.address.add(place).write(value) }
    }

    // Moves the value out of a place, which is empty then.
    pub(crate) fn take(&mut self, start: Start<T>, place: usize) -> T
        requires { (start.address ≡ self.old.address) × IsFilled self.old.places place }
        ensures value { get_or self.old.places place None ≡ Some result }
        ensures places { (self.new.address ≡ self.old.address) × (self.new.places ≡ slice_set self.old.places place None) }
    {
        unsafe { start.address.add(place).read() }
    }

    // The value in a place.
    pub(crate) fn get(&self, start: Start<T>, place: usize) -> &T
        requires { (start.address ≡ self.now.address) × IsFilled self.now.places place }
        ensures { get_or self.now.places place None ≡ Some result.now }
    {
        unsafe { &*start.address.add(place) }
    }

    // The values in some places side by side.
    pub(crate) fn run(&self, start: Start<T>, from: usize, count: usize) -> &[T]
        requires { (start.address ≡ self.now.address) × IsRun self.now.places from count }
        ensures { take count (drop from self.now.places) ≡ map Some result.now }
    {
        unsafe { slice::from_raw_parts(start.address.add(from), count) }
    }
}
