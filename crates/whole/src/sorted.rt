// The keys that a table holds, in order, each once, with its lowest place.
ghost use Rattle.std.specs.Prelude.{◌≡◌, ◌≤◌, length};
ghost use Rattle.order.specs.Sorted.{over};
ghost use Rattle.memory.specs.Offsets.{Room, places_in};
ghost use Rattle.whole.specs.Whole.{entries_of, lowest_of, order_after};

// The keys of the places that are held, each with its place, and how many they are.
fn gather(table: &[u8], n: usize, order: &mut [u64]) -> usize
    requires { (n ≡ places_in table.now) × Room n table.now × (n ≤ length order.old) }
    ensures { (order.new ≡ over (entries_of table.now n) order.old) × (result ≡ length (entries_of table.now n)) }
{
    let clock = table_bytes::clock_of(table);
    let mut k: usize = 0;
    let mut i: usize = 0;
    while i < n {
        let key = memory::get4(table, memory::HEAD + memory::KEY * i);
        if memory::is_held(clock, key, table_bytes::body(table, n, i)) {
            order[k] = key as u64 * order::PLACES + i as u64;
            k += 1;
        }
        i += 1;
    }
    k
}

// .. in order, of each key the lowest place.
pub(crate) fn in_order(table: &[u8], n: usize, order: &mut [u64]) -> usize
    requires { (n ≡ places_in table.now) × Room n table.now × (n ≤ length order.old) }
    ensures { (order.new ≡ order_after table.now order.old) × (result ≡ length (lowest_of table.now)) }
{
    let k = gather(table, n, order);
    order::sort(order, k);
    order::once(order, k)
}
