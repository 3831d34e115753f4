// Four numbers at once: nothing of one is needed for another.
ghost use Rattle.std.specs.List.{All, AllZip};

// What a function gives of each of four numbers.
pub(crate) fn each<F: Fn(u32) -> u32>(numbers: [u32; 4], f: F) -> [u32; 4]
    requires { All (λ x. F.pre f x) numbers }
    ensures { AllZip (λ x r. F.post f x r) numbers result }
{
    // Written out: an array's `map` speaks of its calls turn by turn, from which its callers would have to prove each.
    let [a, b, c, d] = numbers;
    [f(a), f(b), f(c), f(d)]
}
