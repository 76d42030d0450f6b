//! One raw block from the allocator, as a row of places that are each empty or hold a value. Only
//! the six functions here touch the pointer, and their contracts say what makes that safe.
ghost use Rattle.std.{specs.Prelude.{◌≡◌, ℕ, ◌<◌, List, Option, Some, None, length, replicate, get_or, slice_set, IfOk, ⊤}, specs.Borrow.sem};
ghost use Rattle.std_alloc.specs.Vec.Ownership.{FitsInBlock};
ghost use base.Fml.{ftrue};
ghost use denote.RawPtr.{Ptr};
ghost use Rattle.slot_arena.{specs.Place.Holds, specs.Owned.{owned_places, lent_places, owned_lease}};

use std::alloc::{AllocError, Allocator};
use std::marker::{Model, PhantomData, Send, Sync};
use std::mem::{align_of, size_of};

/// Where a block begins. It owns nothing.
pub struct Start<T> {
    ptr: *mut T,
}

impl<T> Clone for Start<T> {
    ghost is_clone = { λ x y. y ≡ x };

    ghost is_infallible = { λ _. ⊤ };

    fn clone(&self) -> Result<Start<T>, AllocError> {
        Ok(*self)
    }
}

impl<T> Copy for Start<T> {}

unsafe impl<T> Send for Start<T> {}

unsafe impl<T> Sync for Start<T> {}

/// The owner of a block's places and of the values in them. It takes no room: whoever holds it keeps
/// the start too.
pub struct Places<T> {
    mark: PhantomData<*const T>,
    ghost at: { Ptr },
    ghost row: { List (Option T) },
}

impl<T> Model for Places<T> {
    ghost also_owns = { λ p. owned_places T.row p.at p.row };

    ghost also_shares = { λ p _ κ. lent_places T.row p.at p.row κ };
}

unsafe impl<T: Send> Send for Places<T> {}

unsafe impl<T: Sync> Sync for Places<T> {}

/// The right to give a block of `len` places back to `alloc`. It takes no room.
pub struct Lease<T, A: Allocator> {
    mark: PhantomData<*const (T, A)>,
    ghost at: { Ptr },
    ghost len: { ℕ },
    ghost alloc: { A },
}

impl<T, A: Allocator> Model for Lease<T, A> {
    ghost also_owns = { λ l. owned_lease T.row (A.dealloc_token l.alloc) l.at l.len };

    ghost also_shares = { λ _ _ _. ftrue };
}

unsafe impl<T, A: Allocator + Send> Send for Lease<T, A> {}

// A `&` to it holds nothing.
unsafe impl<T, A: Allocator> Sync for Lease<T, A> {}

/// Takes a block of `len` empty places from the allocator, by one request.
pub(crate) fn reserve<T, A: Allocator>(
    alloc: &A,
    len: usize,
) -> Result<(Start<T>, Places<T>, Lease<T, A>), AllocError>
    requires { FitsInBlock T.row len }
    ensures { IfOk result (λ r. (r.1.at ≡ r.0.ptr) × (r.1.row ≡ replicate len None) × (r.2.at ≡ r.0.ptr) × (r.2.len ≡ len) × (r.2.alloc ≡ alloc.now)) }
{
    match alloc.allocate(len * size_of::<T>(), align_of::<T>()) {
        Ok(block) => {
            let start = Start {
                ptr: block as *mut T,
            };
            Ok((
                start,
                Places { mark: PhantomData },
                Lease { mark: PhantomData },
            ))
        }
        Err(refused) => Err(refused),
    }
}

/// Gives a block back to its allocator. All its places must be empty.
pub(crate) fn release<T, A: Allocator>(
    alloc: &A,
    start: Start<T>,
    len: usize,
    places: Places<T>,
    lease: Lease<T, A>,
)
    requires { (places.at ≡ start.ptr) × (places.row ≡ replicate len None) × (lease.at ≡ start.ptr) × (lease.len ≡ len) × (lease.alloc ≡ alloc.now) }
{
    let Places { mark: _ } = places;
    let Lease { mark: _ } = lease;
    unsafe {
        alloc.deallocate(start.ptr as *mut u8, len * size_of::<T>(), align_of::<T>());
    }
}

impl<T> Places<T> {
    ghost use Rattle.slot_arena.specs.Lent.{lends_place};

    /// Puts a value into an empty place.
    pub(crate) fn put(&mut self, start: Start<T>, index: usize, value: T)
        requires { (start.ptr ≡ self.old.at) × (index < length self.old.row) × (get_or self.old.row index None ≡ None) }
        ensures { (self.new.at ≡ self.old.at) × (self.new.row ≡ slice_set self.old.row index (Some value)) }
    {
        unsafe { start.ptr.add(index).write(value) }
    }

    /// Moves the value out of a place, which is empty from then on.
    pub(crate) fn pull(&mut self, start: Start<T>, index: usize) -> T
        requires { (start.ptr ≡ self.old.at) × Holds self.old.row index }
        ensures value { get_or self.old.row index None ≡ Some result }
        ensures row { (self.new.at ≡ self.old.at) × (self.new.row ≡ slice_set self.old.row index None) }
    {
        unsafe { start.ptr.add(index).read() }
    }

    /// The value in a place, to read.
    pub(crate) fn seen(&self, start: Start<T>, index: usize) -> &T
        requires { (start.ptr ≡ self.now.at) × Holds self.now.row index }
        ensures { get_or self.now.row index None ≡ Some result.now }
    {
        unsafe { &*start.ptr.add(index) }
    }

    /// The value in a place, to change.
    pub(crate) fn lent(&mut self, start: Start<T>, index: usize) -> &mut T
        requires { (start.ptr ≡ self.old.at) × Holds self.old.row index }
        ensures* writes_back { sem 𝓛 (lends_place T.row self.entry index result) }
        ensures value { get_or self.old.row index None ≡ Some result.now }
    {
        unsafe { &mut *start.ptr.add(index) }
    }
}
