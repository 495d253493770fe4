// What the rules say. A line has a rule and its arguments, and after the colon its sentence. `S` is the store of the arguments.

/// Arguments that fit.
pub const FITTING: &str = "
read 0 (set s0 x0 f0 i0) x0 0 : (= (field S x0 f0) i0)
read 0 (set s0 x0 f0 i0) x1 0 : (and (or (not (= x1 x0)) (= (field S x1 f0) i0)) (or (= x1 x0) (= (field S x1 f0) (field s0 x1 f0))))
read 0 (set s0 x0 f2 x1) x0 4 : (= (field S x0 f4) (field s0 x0 f4))
read 1 (set s0 x0 f0 i0) x1 i1 : (= (elem S x1 i1) (elem s0 x1 i1))
read 2 (set s0 x0 f0 i0) x1 : (= (inv S x1) (inv s0 x1))
read 3 (set s0 x0 f0 i0) x1 : (= (own S x1) (own s0 x1))
read 4 (set s0 x0 f0 i0) : (= (next S) (next s0))
read 5 (set s0 x0 f0 i0) x1 : (and (or (not (alloc S x1)) (alloc s0 x1)) (or (alloc S x1) (not (alloc s0 x1))))
read 6 (set s0 x0 f0 i0) x1 : (and (or (not (com S x1)) (com s0 x1)) (or (com S x1) (not (com s0 x1))))
read 7 (set s0 x0 f0 i0) x1 : (and (or (not (ready S x1)) (ready s0 x1)) (or (ready S x1) (not (ready s0 x1))))
read 9 (put s0 x0 i0 i1) x0 i0 : (= (elemi S x0 i0) i1)
read 9 (put s0 x0 i0 i1) x1 i0 : (and (or (not (= x1 x0)) (= (elemi S x1 i0) i1)) (or (= x1 x0) (= (elemi S x1 i0) (elemi s0 x1 i0))))
read 9 (put s0 x0 i0 i1) x1 i2 : (and (or (not (= x1 x0)) (not (= i2 i0)) (= (elemi S x1 i2) i1)) (or (= x1 x0) (= (elemi S x1 i2) (elemi s0 x1 i2))) (or (= i2 i0) (= (elemi S x1 i2) (elemi s0 x1 i2))))
read 10 (put s0 x0 i0 b0) x0 i0 : (= (elemb S x0 i0) b0)
read 1 (put s0 x0 i0 x1) x0 i0 : (= (elem S x0 i0) x1)
read 1 (put s0 x0 i0 i1) x0 i0 : (= (elem S x0 i0) (elem s0 x0 i0))
read 0 (put s0 x0 i0 i1) x0 0 : (= (field S x0 f0) (field s0 x0 f0))
read 2 (unp s0 x0 c6) x0 : (= (inv S x0) c4)
read 2 (unp s0 x0 c6) x1 : (and (or (not (= x1 x0)) (= (inv S x1) c4)) (or (= x1 x0) (= (inv S x1) (inv s0 x1))))
read 6 (unp s0 x0 c4) x1 : (and (or (not (= (own s0 x1) (pair x0 c4))) (not (com S x1))) (or (= (own s0 x1) (pair x0 c4)) (not (com s0 x1)) (com S x1)) (or (com s0 x1) (not (com S x1))))
read 3 (unp s0 x0 c4) x1 : (= (own S x1) (own s0 x1))
read 2 (pck s0 x0 c6) x0 : (= (inv S x0) c6)
read 2 (pck s0 x0 c6) x1 : (and (or (not (= x1 x0)) (= (inv S x1) c6)) (or (= x1 x0) (= (inv S x1) (inv s0 x1))))
read 6 (pck s0 x0 c4) x1 : (and (or (not (= (own s0 x1) (pair x0 c4))) (com S x1)) (or (not (com s0 x1)) (com S x1)) (or (= (own s0 x1) (pair x0 c4)) (com s0 x1) (not (com S x1))))
read 3 (cap s0 x0 c4 x1) x2 : (and (or (not (= x1 null)) (= (own S x2) (own s0 x2))) (or (= x1 null) (not (isgroup (own s0 x1))) (not (= (own s0 x2) (own s0 x1))) (= (own S x2) (pair x0 c4))) (or (isgroup (own s0 x1)) (= (own S x2) (own s0 x2))) (or (= (own s0 x2) (own s0 x1)) (= (own S x2) (own s0 x2))))
read 3 (cap s0 x0 c4 x1) x1 : (and (or (not (= x1 null)) (= (own S x1) (own s0 x1))) (or (= x1 null) (not (isgroup (own s0 x1))) (= (own S x1) (pair x0 c4))) (or (isgroup (own s0 x1)) (= (own S x1) (own s0 x1))))
read 3 (cap s0 x0 c4 null) x2 : (and (= (own S x2) (own s0 x2)) (or (isgroup (own s0 null)) (= (own S x2) (own s0 x2))) (or (= (own s0 x2) (own s0 null)) (= (own S x2) (own s0 x2))))
read 2 (cap s0 x0 c4 x1) x2 : (= (inv S x2) (inv s0 x2))
read 3 (join s0 x0 x1) x2 : (and (or (not (= x1 null)) (= (own S x2) (own s0 x2))) (or (= x1 null) (not (isgroup (own s0 x1))) (not (= (own s0 x2) (own s0 x1))) (= (own S x2) (own s0 x0))) (or (= x1 null) (isgroup (own s0 x1)) (not (isgroup (own s0 x0))) (not (= (own s0 x2) (own s0 x0))) (= (own S x2) (own s0 x1))) (or (not (isgroup (own s0 x1))) (= (own s0 x2) (own s0 x1)) (= (own S x2) (own s0 x2))) (or (isgroup (own s0 x1)) (= (own s0 x2) (own s0 x0)) (= (own S x2) (own s0 x2))) (or (isgroup (own s0 x1)) (isgroup (own s0 x0)) (= (own S x2) (own s0 x2))))
read 3 (join s0 x0 x1) x1 : (and (or (not (= x1 null)) (= (own S x1) (own s0 x1))) (or (= x1 null) (not (isgroup (own s0 x1))) (= (own S x1) (own s0 x0))) (or (= x1 null) (isgroup (own s0 x1)) (not (isgroup (own s0 x0))) (not (= (own s0 x1) (own s0 x0))) (= (own S x1) (own s0 x1))) (or (isgroup (own s0 x1)) (= (own s0 x1) (own s0 x0)) (= (own S x1) (own s0 x1))) (or (isgroup (own s0 x1)) (isgroup (own s0 x0)) (= (own S x1) (own s0 x1))))
read 3 (join s0 x0 x1) x0 : (and (or (not (= x1 null)) (= (own S x0) (own s0 x0))) (or (= x1 null) (not (isgroup (own s0 x1))) (not (= (own s0 x0) (own s0 x1))) (= (own S x0) (own s0 x0))) (or (= x1 null) (isgroup (own s0 x1)) (not (isgroup (own s0 x0))) (= (own S x0) (own s0 x1))) (or (not (isgroup (own s0 x1))) (= (own s0 x0) (own s0 x1)) (= (own S x0) (own s0 x0))) (or (isgroup (own s0 x1)) (isgroup (own s0 x0)) (= (own S x0) (own s0 x0))))
read 3 (join s0 x0 null) x2 : (and (= (own S x2) (own s0 x2)) (or (not (isgroup (own s0 null))) (= (own s0 x2) (own s0 null)) (= (own S x2) (own s0 x2))) (or (isgroup (own s0 null)) (= (own s0 x2) (own s0 x0)) (= (own S x2) (own s0 x2))) (or (isgroup (own s0 null)) (isgroup (own s0 x0)) (= (own S x2) (own s0 x2))))
read 6 (join s0 x0 x1) x2 : (and (or (not (com S x2)) (com s0 x2)) (or (com S x2) (not (com s0 x2))))
read 0 (new s0 c4) (next s0) 0 : (= (field S (next s0) f0) 0)
read 0 (new s0 c4) (next s0) 1 : (= (field S (next s0) f1) false)
read 0 (new s0 c4) x0 2 : (and (or (not (= x0 (next s0))) (= (field S x0 f2) null)) (or (= x0 (next s0)) (= (field S x0 f2) (field s0 x0 f2))))
read 1 (new s0 c4) (next s0) i0 : (= (elem S (next s0) i0) null)
read 2 (new s0 c4) x0 : (and (or (not (= x0 (next s0))) (= (inv S x0) c0)) (or (= x0 (next s0)) (= (inv S x0) (inv s0 x0))))
read 3 (new s0 c4) x0 : (or (= x0 (next s0)) (= (own S x0) (own s0 x0)))
read 3 (new s0 c4) (next s0) : (and )
read 4 (new s0 c4) : (not (= (next S) (next s0)))
read 5 (new s0 c4) x0 : (and (or (not (= x0 (next s0))) (alloc S x0)) (or (not (alloc s0 x0)) (alloc S x0)) (or (= x0 (next s0)) (alloc s0 x0) (not (alloc S x0))))
read 5 (new s0 c4) (next s0) : (and (alloc S (next s0)) (or (not (alloc s0 (next s0))) (alloc S (next s0))))
read 6 (new s0 c4) x0 : (and (or (not (= x0 (next s0))) (not (com S x0))) (or (= x0 (next s0)) (not (com S x0)) (com s0 x0)) (or (= x0 (next s0)) (com S x0) (not (com s0 x0))))
read 7 (new s0 c4) (next s0) : (not (ready S (next s0)))
read 2 (arr s0 c1 i0) (next s0) : (= (inv S (next s0)) c1)
read 4 (arr s0 c1 i0) : (not (= (next S) (next s0)))
read 7 (arr s0 c1 i0) x0 : (and (or (not (= x0 (next s0))) (ready S x0)) (or (= x0 (next s0)) (not (ready S x0)) (ready s0 x0)) (or (= x0 (next s0)) (ready S x0) (not (ready s0 x0))))
read 9 (arr s0 c1 i0) (next s0) i1 : (= (elemi S (next s0) i1) 0)
read 10 (arr s0 c2 i0) (next s0) i1 : (= (elemb S (next s0) i1) false)
read 7 (rdy s0 x0) x0 : (and (ready S x0) (or (not (ready s0 x0)) (ready S x0)))
read 7 (rdy s0 x0) x1 : (and (or (not (= x1 x0)) (ready S x1)) (or (not (ready s0 x1)) (ready S x1)) (or (= x1 x0) (ready s0 x1) (not (ready S x1))))
read 5 (rdy s0 x0) x1 : (and (or (not (alloc S x1)) (alloc s0 x1)) (or (alloc S x1) (not (alloc s0 x1))))
read 2 s0 x0 s1 : (or (not (= s0 s1)) (= (inv s0 x0) (inv s1 x0)))
read 4 s0 (rdy s1 x0) : (or (not (= s0 (rdy s1 x0))) (= (next s0) (next (rdy s1 x0))))
read 6 s0 x0 s1 : (and (or (not (= s0 s1)) (not (com s0 x0)) (com s1 x0)) (or (not (= s0 s1)) (com s0 x0) (not (com s1 x0))))
read 0 s0 x0 0 s0 : (= (field s0 x0 f0) (field s0 x0 f0))
fresh 0 s0 : (and (not (alloc s0 (next s0))) (not (= (next s0) null)))
fresh 0 (new s0 c4) : (and (not (alloc S (next S))) (not (= (next S) null)))
fresh 1 (new s0 c4) : (isgroup (own S (next s0)))
fresh 1 (arr s0 c1 i0) : (isgroup (own S (next s0)))
fresh 2 (new s0 c4) x0 : (or (not (alloc s0 x0)) (not (= (own s0 x0) (own S (next s0)))))
fresh 2 (arr s0 c1 i0) x0 : (or (not (alloc s0 x0)) (not (= (own s0 x0) (own S (next s0)))))
class 0 c6 c4 : (sub c6 c4)
class 0 c4 c6 : (not (sub c4 c6))
class 0 c4 c4 : (sub c4 c4)
class 0 c1 c0 : (sub c1 c0)
class 0 c5 c3 : (not (sub c5 c3))
class 0 c10 c8 : (sub c10 c8)
class 0 c8 c10 : (not (sub c8 c10))
class 1 x0 c6 : (or (not (sub x0 c6)) (sub x0 c4))
class 1 (type x0) c4 : (or (not (sub (type x0) c4)) (sub (type x0) c0))
class 1 (inv s0 x0) c1 : (or (not (sub (inv s0 x0) c1)) (sub (inv s0 x0) c0))
class 2 x0 c4 c10 : (or (not (sub x0 c4)) (not (sub x0 c10)))
class 2 (type x0) c6 c1 : (or (not (sub (type x0) c6)) (not (sub (type x0) c1)))
class 3 c4 : (sub c4 c4)
class 3 (type x0) : (sub (type x0) (type x0))
class 3 (inv s0 x0) : (sub (inv s0 x0) (inv s0 x0))
split 0 (pair x0 c4) : (not (isgroup (pair x0 c4)))
split 1 (pair x0 c4) (pair x1 c6) : (and (or (not (= (pair x0 c4) (pair x1 c6))) (= x0 x1)) (or (not (= (pair x0 c4) (pair x1 c6))) (= c4 c6)))
split 1 (pair x0 c4) (pair x0 c4) : (and (= x0 x0) (= c4 c4))
apart i0 i1 : (or (= i0 i1) (<= (+ i0 1) i1) (<= (+ i1 1) i0))
apart (field s0 x0 f0) -3 : (or (= (field s0 x0 f0) -3) (<= (+ (field s0 x0 f0) 1) -3) (<= (+ -3 1) (field s0 x0 f0)))
quorem i0 3 : (and (= i0 (+ (* 3 (quo i0 3)) (rem i0 3))) (or (not (<= 0 i0)) (<= 0 (rem i0 3))) (or (not (<= i0 0)) (<= (rem i0 3) 0)) (<= (rem i0 3) 2) (<= -2 (rem i0 3)))
quorem i0 -3 : (and (= i0 (+ (* -3 (quo i0 -3)) (rem i0 -3))) (or (not (<= 0 i0)) (<= 0 (rem i0 -3))) (or (not (<= i0 0)) (<= (rem i0 -3) 0)) (<= (rem i0 -3) 2) (<= -2 (rem i0 -3)))
quorem i0 1 : (and (= i0 (+ (* 1 (quo i0 1)) (rem i0 1))) (or (not (<= 0 i0)) (<= 0 (rem i0 1))) (or (not (<= i0 0)) (<= (rem i0 1) 0)) (<= (rem i0 1) 0) (<= 0 (rem i0 1)))
quorem (len x0) -1 : (and (= (len x0) (+ (* -1 (quo (len x0) -1)) (rem (len x0) -1))) (or (not (<= 0 (len x0))) (<= 0 (rem (len x0) -1))) (or (not (<= (len x0) 0)) (<= (rem (len x0) -1) 0)) (<= (rem (len x0) -1) 0) (<= 0 (rem (len x0) -1)))
quorem i0 170141183460469231731687303715884105727 : (and (= i0 (+ (* 170141183460469231731687303715884105727 (quo i0 170141183460469231731687303715884105727)) (rem i0 170141183460469231731687303715884105727))) (or (not (<= 0 i0)) (<= 0 (rem i0 170141183460469231731687303715884105727))) (or (not (<= i0 0)) (<= (rem i0 170141183460469231731687303715884105727) 0)) (<= (rem i0 170141183460469231731687303715884105727) 170141183460469231731687303715884105726) (<= -170141183460469231731687303715884105726 (rem i0 170141183460469231731687303715884105727)))
quorem i0 -170141183460469231731687303715884105728 : (and (= i0 (+ (* -170141183460469231731687303715884105728 (quo i0 -170141183460469231731687303715884105728)) (rem i0 -170141183460469231731687303715884105728))) (or (not (<= 0 i0)) (<= 0 (rem i0 -170141183460469231731687303715884105728))) (or (not (<= i0 0)) (<= (rem i0 -170141183460469231731687303715884105728) 0)) (<= (rem i0 -170141183460469231731687303715884105728) 170141183460469231731687303715884105727) (<= -170141183460469231731687303715884105727 (rem i0 -170141183460469231731687303715884105728)))
bool b0 : (or (= b0 true) (= b0 false))
bool (field s0 x0 f1) : (or (= (field s0 x0 f1) true) (= (field s0 x0 f1) false))
bool true : (or (= true true) (= true false))
g1 s0 x0 c4 : (or (not (alloc s0 x0)) (not (sub (inv s0 x0) c4)) (and (and (not (= x0 null)) (<= 0 (field s0 x0 f0)))))
g1 (rdy s0 x1) x0 c6 : (or (not (alloc (rdy s0 x1) x0)) (not (sub (inv (rdy s0 x1) x0) c6)) (and ))
g2 s0 x0 : (or (not (alloc s0 x0)) (not (com s0 x0)) (= (inv s0 x0) (type x0)))
g2 (rdy s0 x1) x0 : (or (not (alloc (rdy s0 x1) x0)) (not (com (rdy s0 x1) x0)) (= (inv (rdy s0 x1) x0) (type x0)))
g3 s0 0 x0 x1 c4 : (and (or (not (alloc s0 x0)) (not (= (own s0 x0) (pair x1 c4))) (not (com s0 x0)) (sub (inv s0 x1) c4)) (or (not (alloc s0 x0)) (not (= (own s0 x0) (pair x1 c4))) (com s0 x0) (not (sub (inv s0 x1) c4))))
g3 s0 1 x0 : (or (not (alloc s0 x0)) (not (isgroup (own s0 x0))) (not (com s0 x0)))
g4 s0 x0 2 : (or (not (alloc s0 x0)) (not (sub (type x0) c4)) (= (field s0 x0 f2) null) (= (own s0 (field s0 x0 f2)) (pair x0 c4)))
g4 s0 x0 3 : (or (not (alloc s0 x0)) (not (sub (type x0) c4)) (= (field s0 x0 f3) null) (= (own s0 (field s0 x0 f3)) (own s0 x0)))
g4 s0 x0 5 : (or (not (alloc s0 x0)) (not (sub (type x0) c6)) (= (field s0 x0 f5) null) (= (own s0 (field s0 x0 f5)) (pair x0 c6)))
g5 s0 0 x0 0 : (and (or (not (alloc s0 x0)) (not (sub (type x0) c4)) (<= -2147483648 (field s0 x0 f0))) (or (not (alloc s0 x0)) (not (sub (type x0) c4)) (<= (field s0 x0 f0) 2147483647)))
g5 s0 0 x0 2 : (and (or (not (alloc s0 x0)) (not (sub (type x0) c4)) (= (field s0 x0 f2) null) (alloc s0 (field s0 x0 f2))) (or (not (alloc s0 x0)) (not (sub (type x0) c4)) (= (field s0 x0 f2) null) (sub (type (field s0 x0 f2)) c4)))
g5 s0 0 x0 3 : (and (or (not (alloc s0 x0)) (not (sub (type x0) c4)) (= (field s0 x0 f3) null) (alloc s0 (field s0 x0 f3))) (or (not (alloc s0 x0)) (not (sub (type x0) c4)) (= (field s0 x0 f3) null) (sub (type (field s0 x0 f3)) c4)))
g5 s0 0 x0 4 : (and (or (not (alloc s0 x0)) (not (sub (type x0) c4)) (= (field s0 x0 f4) null) (alloc s0 (field s0 x0 f4))) (or (not (alloc s0 x0)) (not (sub (type x0) c4)) (= (field s0 x0 f4) null) (sub (type (field s0 x0 f4)) c6)))
g5 s0 0 x0 5 : (and (or (not (alloc s0 x0)) (not (sub (type x0) c6)) (= (field s0 x0 f5) null) (alloc s0 (field s0 x0 f5))) (or (not (alloc s0 x0)) (not (sub (type x0) c6)) (= (field s0 x0 f5) null) (sub (type (field s0 x0 f5)) c3)))
g5 s0 9 x0 i0 : (and (or (not (alloc s0 x0)) (<= -2147483648 (elemi s0 x0 i0))) (or (not (alloc s0 x0)) (<= (elemi s0 x0 i0) 2147483647)))
g5 s0 1 x0 i0 : (and (or (not (alloc s0 x0)) (= (elem s0 x0 i0) null) (alloc s0 (elem s0 x0 i0))) (or (not (alloc s0 x0)) (not (= (type x0) c3)) (= (elem s0 x0 i0) null) (sub (type (elem s0 x0 i0)) c0)) (or (not (alloc s0 x0)) (not (= (type x0) c5)) (= (elem s0 x0 i0) null) (sub (type (elem s0 x0 i0)) c4)) (or (not (alloc s0 x0)) (not (= (type x0) c7)) (= (elem s0 x0 i0) null) (sub (type (elem s0 x0 i0)) c6)) (or (not (alloc s0 x0)) (not (= (type x0) c9)) (= (elem s0 x0 i0) null) (sub (type (elem s0 x0 i0)) c8)) (or (not (alloc s0 x0)) (not (= (type x0) c11)) (= (elem s0 x0 i0) null) (sub (type (elem s0 x0 i0)) c10)))
g5 s0 2 x0 : (or (not (alloc s0 x0)) (sub (type x0) (inv s0 x0)))
g5 s0 2 x0 c6 : (or (not (alloc s0 x0)) (not (= (inv s0 x0) c6)) (sub (type x0) c6))
g5 s0 3 x0 x1 c4 : (or (not (alloc s0 x0)) (not (= (own s0 x0) (pair x1 c4))) (alloc s0 x1))
g5 s0 8 x0 : (and (or (not (alloc s0 x0)) (<= 0 (len x0))) (or (not (alloc s0 x0)) (<= (len x0) 2147483647)))
g6 s0 0 x0 2 : (or (not (alloc s0 x0)) (not (sub (type x0) c4)) (= (field s0 x0 f2) null) (ready s0 (field s0 x0 f2)))
g6 s0 0 x0 3 : (and (or (not (alloc s0 x0)) (not (sub (type x0) c4)) (= (field s0 x0 f3) null) (ready s0 (field s0 x0 f3))) (or (not (alloc s0 x0)) (not (sub (type x0) c4)) (not (ready s0 x0)) (not (= (field s0 x0 f3) null))))
g6 s0 0 x0 5 : (and (or (not (alloc s0 x0)) (not (sub (type x0) c6)) (= (field s0 x0 f5) null) (ready s0 (field s0 x0 f5))) (or (not (alloc s0 x0)) (not (sub (type x0) c6)) (not (ready s0 x0)) (not (= (field s0 x0 f5) null))))
g6 s0 1 x0 i0 : (or (not (alloc s0 x0)) (= (elem s0 x0 i0) null) (ready s0 (elem s0 x0 i0)))
";

/// Arguments that don't fit: there is no sentence.
pub const OTHERS: &str = "
read  :
read 2 :
read 2 s0 :
read 8 (rdy s0 x0) x1 :
read 11 (rdy s0 x0) x1 :
read x0 (rdy s0 x0) x1 :
read -1 (rdy s0 x0) x1 :
read 0 (rdy s0 x0) x0 6 :
read 0 (rdy s0 x0) x0 -1 :
read 0 (rdy s0 x0) x0 i0 :
read 0 (rdy s0 x0) x0 :
read 2 (rdy s0 x0) i0 :
read 2 (rdy s0 x0) x0 s1 :
read 2 (rdy s0 i0) x0 :
read 0 (set s0 x0 f0 x1) x0 0 :
read 0 (set s0 x0 f6 i0) x0 0 :
read 9 (put s0 x0 x1 i0) x0 i0 :
read 9 (put s0 x0 i0 s1) x0 i0 :
read 9 (rdy s0 x0) x0 x1 :
read 2 x0 x1 :
read 2 s0 x0 :
read 2 s0 x0 x1 :
read 8 s0 x0 s1 :
read 4 (rdy s0 x0) x0 :
read 2 (rdy s0 (own x1 x0)) x0 :
fresh  :
fresh 0 :
fresh s0 :
fresh 0 x0 :
fresh 1 s0 :
fresh 1 (rdy s0 x0) :
fresh 1 (new x0 c4) :
fresh 1 (arr s0 c1 x0) :
fresh 2 s0 x0 :
fresh 2 (new s0 c4) :
fresh 2 (new s0 c4) i0 :
fresh 2 (new s0 c4) x0 x1 :
fresh 3 s0 :
fresh 0 s0 x0 :
fresh 1 (new s0 c4) x0 :
class  :
class 0 :
class c4 c4 :
class 0 c4 :
class 0 x0 c4 :
class 0 c4 x0 :
class 0 c4 c6 c8 :
class 1 x0 c0 :
class 1 x0 x1 :
class 1 i0 c4 :
class 1 x0 :
class 2 x0 c6 c4 :
class 2 x0 c4 c6 :
class 2 x0 c4 c4 :
class 2 x0 c0 c4 :
class 2 x0 c4 c8 :
class 2 x0 c8 c4 :
class 2 x0 c4 x1 :
class 2 i0 c4 c10 :
class 2 x0 c4 :
class 3 x0 :
class 3 (own s0 x0) :
class 3 i0 :
class 3 (inv x0 x0) :
class 3 c4 c4 :
class 4 c4 :
split  :
split 0 :
split 0 x0 :
split 0 (own s0 x0) :
split 0 (pair i0 c4) :
split 0 (pair x0) :
split 0 (pair x0 c4) (pair x1 c6) :
split 1 (pair x0 c4) :
split 1 (pair x0 c4) x0 :
split 1 x0 (pair x0 c4) :
split 1 (pair x0 c4) (pair x0 i0) :
split 2 (pair x0 c4) (pair x1 c6) :
split (pair x0 c4) (pair x1 c6) :
apart  :
apart i0 :
apart i0 x0 :
apart b0 b1 :
apart i0 i1 i2 :
apart i0 (+ i0 x0) :
quorem  :
quorem i0 :
quorem i0 0 :
quorem i0 i1 :
quorem x0 3 :
quorem i0 b0 :
quorem i0 3 3 :
quorem (+ i0 x0) 3 :
bool  :
bool i0 :
bool x0 :
bool b0 b1 :
bool (field s0 x0 f0) :
bool (field x0 x0 f1) :
g1 s0 x0 :
g1 s0 x0 x1 :
g1 s0 i0 c4 :
g1 x0 x1 c4 :
g1 s0 x0 c4 c4 :
g2  :
g2 s0 :
g2 s0 i0 :
g2 x0 x1 :
g2 s0 x0 x1 :
g2 (rdy s0 i0) x0 :
g3 s0 :
g3 s0 0 :
g3 s0 0 x0 :
g3 s0 0 x0 x1 :
g3 s0 0 x0 x1 i0 :
g3 s0 0 x0 x1 c4 c4 :
g3 s0 1 :
g3 s0 1 i0 :
g3 s0 1 x0 x1 c4 :
g3 s0 2 x0 :
g3 s0 x0 x1 c4 :
g3 x0 1 x0 :
g4 s0 x0 0 :
g4 s0 x0 1 :
g4 s0 x0 4 :
g4 s0 x0 6 :
g4 s0 x0 -1 :
g4 s0 x0 x1 :
g4 s0 x0 :
g4 s0 i0 2 :
g4 s0 x0 2 2 :
g4 x0 x0 2 :
g5 s0 :
g5 s0 0 :
g5 s0 0 x0 1 :
g5 s0 0 x0 6 :
g5 s0 0 x0 i0 :
g5 s0 0 i0 0 :
g5 s0 3 x0 :
g5 s0 3 x0 x1 :
g5 s0 3 x0 x1 i0 :
g5 s0 4 :
g5 s0 5 x0 :
g5 s0 6 x0 :
g5 s0 7 x0 :
g5 s0 10 x0 i0 :
g5 s0 9 x0 x1 :
g5 s0 1 x0 x1 :
g5 s0 2 i0 :
g5 s0 2 x0 x1 :
g5 s0 8 i0 :
g5 s0 8 :
g5 s0 11 x0 :
g5 s0 x0 :
g5 x0 2 x0 :
g6 s0 :
g6 s0 0 x0 0 :
g6 s0 0 x0 1 :
g6 s0 0 x0 6 :
g6 s0 9 x0 i0 :
g6 s0 10 x0 i0 :
g6 s0 2 x0 :
g6 s0 7 x0 :
g6 s0 8 x0 :
g6 s0 1 x0 x1 :
g6 s0 0 i0 2 :
g6 i0 0 x0 2 :
";

/// Sentences that the rule doesn't say.
pub const WRONG: &str = "
read 0 (set s0 x0 f2 x1) x0 4 : (= (field S x0 f4) x1)
read 0 (set s0 x0 f0 i0) x1 0 : (= (field S x1 f0) i0)
read 1 (put s0 x0 i0 i1) x0 i0 : (= (elem S x0 i0) i1)
read 2 (unp s0 x0 c6) x0 : (= (inv S x0) c6)
read 2 s0 x0 s1 : (= (inv s0 x0) (inv s1 x0))
read 4 (new s0 c4) : (= (next S) (next s0))
read 7 (new s0 c4) (next s0) : (ready S (next s0))
class 0 c4 c6 : (sub c4 c6)
class 2 x0 c6 c4 : (or (not (sub x0 c6)) (not (sub x0 c4)))
class 2 x0 c4 c8 : (or (not (sub x0 c4)) (not (sub x0 c8)))
quorem i0 -3 : (and (= i0 (+ (* -3 (quo i0 -3)) (rem i0 -3))) (or (not (<= 0 i0)) (<= 0 (rem i0 -3))) (or (not (<= i0 0)) (<= (rem i0 -3) 0)) (<= (rem i0 -3) 3) (<= -3 (rem i0 -3)))
g1 s0 x0 c4 : (or (not (sub (inv s0 x0) c4)) (and (and (not (= x0 null)) (<= 0 (field s0 x0 f0)))))
g1 s0 x0 c6 : (or (not (alloc s0 x0)) (not (sub (inv s0 x0) c6)) (and (and (not (= x0 null)) (<= 0 (field s0 x0 f0)))))
g3 s0 0 x0 x1 c4 : (and (or (not (= (own s0 x0) (pair x1 c4))) (not (com s0 x0)) (sub (inv s0 x1) c4)) (or (not (= (own s0 x0) (pair x1 c4))) (com s0 x0) (not (sub (inv s0 x1) c4))))
g3 s0 1 x0 : (or (not (isgroup (own s0 x0))) (not (com s0 x0)))
g4 s0 x0 3 : (or (not (alloc s0 x0)) (not (sub (type x0) c4)) (= (field s0 x0 f3) null) (= (own s0 (field s0 x0 f3)) (pair x0 c4)))
g6 s0 0 x0 2 : (and (or (not (alloc s0 x0)) (not (sub (type x0) c4)) (= (field s0 x0 f2) null) (ready s0 (field s0 x0 f2))) (or (not (alloc s0 x0)) (not (sub (type x0) c4)) (not (ready s0 x0)) (not (= (field s0 x0 f2) null))))
";
