// Whether links are a mesh.
ghost use Rattle.std.specs.Prelude.{◌≡◌, ◌≤◌, true, false, length};
ghost use Rattle.search.specs.Graphs.{Lawful};
ghost use Rattle.grounds.specs.Nets.{mesh_at, Sound};

use search::links::Ends;

// Whether each link joins two different cabinets.
fn all_apart(links: &[Ends]) -> bool
    ensures yes { result ≡ true → Sound links.now (length links.now) }
    ensures no { result ≡ false → Sound links.now (length links.now) → ⊥ }
{
    links.iter().all(|link| link.first < 64 && link.second < 64 && link.first != link.second)
}

// Whether these links are a mesh: at most 512 of them, and each joins two different cabinets.
pub fn is_mesh(links: &[Ends]) -> bool
    ensures yes { result ≡ true → Lawful (mesh_at links.now) }
    ensures no { result ≡ false → Lawful (mesh_at links.now) → ⊥ }
{
    links.len() <= 512 && all_apart(links)
}
