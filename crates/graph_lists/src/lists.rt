// Numbers listed by a key: the jobs by the bench that they leave, the benches by their load.
ghost use Rattle.std.specs.Prelude.{length};
ghost use Rattle.graph_lists.specs.LinkedLists.{Listable, ListedBy};

// Lists the numbers 1 to n by their keys, rising: `head` gets the least with each key, `next` the one after each.
pub fn list_by(n: usize, key: &[u16], head: &mut [u16], next: &mut [u16])
    requires { Listable n key.now head.old next.old }
    ensures { ListedBy (length head.old) n key.now head.new next.new }
{
    for i in (1..n + 1).rev() {
        let k = usize::from(key[i]);
        next[i] = head[k];
        head[k] = i as u16;
    }
}
