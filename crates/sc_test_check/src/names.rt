// Scopes (ANSI 3.1.2.1), and what the language leaves out: uses of `printf`, forms of `main`, names of the library, structures as parameters and results.

/// A line for each: the text, and what the checker answers.
pub const NAMES: &str = "void f(void) { i; } => X6 1
void f(void) { i; } int i; => X6 1
void f(void) { { int a; } a; } => X6 1
void f(int a) { } void g(void) { a; } => X6 1
void f(int a); int b[sizeof a]; => X6 1
void g(void) { f(); } void f(void) { } => X6 1
void f(void) { f(); } => taken
void f(void) { { enum { A }; } A; } => X6 1
void f(void) { extern int q; } void g(void) { q; } => X6 1
void f(void) { int h(void); } void g(void) { h(); } => X6 1
void f(void) {@g(@1); } => X6 2
void f(void) { sizeof(enum { A }); A; } => taken
void f(void) { { sizeof(enum { A }); } A; } => X6 1
int a[sizeof(enum { A, B })]; int b[B]; => taken
void f(enum { A } a) { a = A; } => taken
void f(enum { A } a); int b[A + 1]; => X6 1
void f(struct s { int m; } *a) { a->m = 1; } => taken
void f(struct s { int m; } *a); struct s x; => X7 1
struct s { enum { A, B } m; }; int a[B]; => taken
int f(int a, int b[sizeof a]); => taken
int printf(const char *); int f(void) { return printf(\"a\", 1, 2); } => taken
extern int printf(const char *f); int g(void) { return printf(\"a\", 1, 2); } => taken
int f(void) { int printf(const char *); return printf(\"a\", 1); } => taken
int f(void) { return printf(\"a\"); } => X6 1
int printf(int a); int f(void) { return printf(1); } => taken
int printf(int a); int f(void) { return printf(1, 2); } => X7 1
int printf(char *a); int f(void) { return printf(\"a\", 2); } => X7 1
static int printf(const char *a) { return 0; } int f(void) { return printf(\"a\"); } => taken
static int printf(const char *a) { return 0; } int f(void) { return printf(\"a\", 2); } => X7 1
void f(void) { int printf; printf = 1; } => taken
void f(int printf) { printf = 1; } => taken
void f(void) { enum { printf }; int a[printf + 1]; } => taken
typedef int printf; printf x; => taken
int printf(const char *); int (*p)(const char *) = printf; => X9 printf 1
int printf(const char *); void f(void) { int (*p)(const char *) =@printf; } => X9 printf 2
int main(void) { return 0; } => taken
int main() { return 0; } => taken
int main(void); => taken
extern int main(void); => taken
signed main(void) { return 0; } => taken
int main(int c) { return 0; } => X9 main 1
int main(int argc, char **argv); => X9 main 1
void main(void) { } => X9 main 1
long main(void) { return 0; } => X9 main 1
unsigned main(void); => X9 main 1
int *main(void); => X9 main 1
int main; => X9 main 1
extern int main; => X9 main 1
int (*main)(void); => X9 main 1
int@main(int c)@{ return 0; } => X9 main 2
void f(void) { int main(int); } => X9 main 1
void f(void) { extern int main; } => X9 main 1
static int main(int a) { return a; } => taken
static void main(void) { } => taken
static int main; => taken
void f(void) { int main; main = 1; } => taken
void f(int main) { main = 1; } => taken
typedef int main; => taken
enum { main }; => taken
struct main { int main; } x; => taken
int putchar(int c) { return c; } => X9 libraryname 1
int puts(const char *s); => taken
int puts(const char *s) { return 0; } => X9 libraryname 1
void *malloc(unsigned int n) { return 0; } => X9 libraryname 1
int printf(const char *f) { return 0; } => X9 libraryname 1
void exit(int s) { } => X9 libraryname 1
int toupper(int c) { return c; } => X9 libraryname 1
void _assert_fail(const char *t, const char *f, int l) { } => X9 libraryname 1
int putchar; => X9 libraryname 1
int rand = 1; => X9 libraryname 1
extern int rand = 1; => X9 libraryname 1
int@i,@abs; => X9 libraryname 3
int strlen(void) { return 0; } => X9 libraryname 1
extern int rand; => taken
int rand(void); => taken
static int rand; => taken
static int putchar(int c) { return c; } => taken
void f(void) { int rand; rand = 1; } => taken
void f(void) { int puts(char *); puts(\"a\"); } => taken
void f(void) { extern int rand; } => taken
void f(int rand) { } => taken
typedef int rand; => taken
struct puts { int puts; }; => taken
int sprintf(void) { return 0; } => taken
int qsort; => taken
int assert(int a) { return a; } => taken
struct s { int m; }; struct s f(void); => X9 structvalue 1
struct s { int m; }; void f(struct s a); => X9 structvalue 1
struct s { int m; }; void f(struct s); => X9 structvalue 1
struct s { int m; }; void f(const struct s a) { } => X9 structvalue 1
struct s { int m; }; struct s f(void) { } => X9 structvalue 1
struct s { int m; }; void f(int (*g)(struct s)); => X9 structvalue 1
struct s { int m; }; struct s (*p)(void); => X9 structvalue 1
struct s { int m; }; int a[sizeof(struct s (*)(void))]; => X9 structvalue 1
struct s { int m; }; void f(void) { (void (*)(struct s))0; } => X9 structvalue 1
struct s { int m; }; typedef struct s F(void); => X9 structvalue 1
struct s { int m; }; void f(int a,@struct s@b); => X9 structvalue 2
struct s { int m; };@struct s@f(void); => X9 structvalue 3
struct t; struct t f(void); => X9 structvalue 1
struct t; void f(struct t a); => X9 structvalue 1
struct s { int m; }; struct s *f(struct s *a) { return a; } => taken
struct s { int m; }; void f(struct s a[2]) { a[1].m = 1; } => taken";
